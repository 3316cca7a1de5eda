ghost use Rattle.eris_trace.specs.SentLines.{TellsSent};

/// The `sent` lines of a trace are the list of all packets that the run has sent, in order, each under its number.
#[tactic(auto, using(crate::proofs::SentLaws::tells_sent))]
pub fn sent_lines_are_the_sent_list()
    ensures { TellsSent }
{}
