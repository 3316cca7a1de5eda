ghost use Rattle.std.specs.Prelude.{◌≡◌, ◌==◌, ◌&&◌, nat_le, IfOk};
ghost use Rattle.eris_base.specs.ConfigLimits.{IsConfig};
ghost use Rattle.eris_words.specs.Cuts.{words};
ghost use Rattle.eris_words.specs.Forms.{Gives};
ghost use Rattle.eris_check.specs.ReportForms as form;
ghost use Rattle.eris_check.specs.TextReading as text;

use crate::cutting::text_of;
use crate::fields::small_of;
use eris_base::Config;
use eris_words::{LineFault, LineWords, Reason};

/// Whether the line, with its LF, is the first one of a report.
pub(crate) fn is_title(line: &[u8]) -> bool
    ensures { result ≡ text.is_title line.now }
{
    line == b"eris report 1\n".as_slice()
}

#[tactic(auto, unfolding(crate::specs::ReportForms::sizes))]
fn sizes_of(words: &mut LineWords) -> Result<(u8, u8, u8), LineFault>
    ensures { Gives (λ s. ((s.0, (s.1, s.2)), words.new)) result (form.sizes.read words.old) }
{
    let shards = small_of(words)?;
    let f = small_of(words)?;
    let clients = small_of(words)?;
    Ok((shards, f, clients))
}

#[tactic(auto, using(crate::proofs::ConfigSteps::config_steps))]
fn sized(shards: u8, f: u8, clients: u8) -> Result<Config, LineFault>
    ensures { Gives (λ config. config) result (form.if_config (record { shards = shards; f = f; clients = clients })) }
{
    match Config::new(shards, f, clients) {
        Ok(config) => Ok(config),
        Err(_) => Err(LineFault::Bad(Reason::Number)),
    }
}

#[tactic(auto, unfolding(crate::specs::ReportForms::config_of))]
fn config_of(words: &mut LineWords) -> Result<Config, LineFault>
    ensures { Gives (λ config. config) result (form.config_of words.old) }
{
    words.expect(b"config")?;
    let (shards, f, clients) = sizes_of(words)?;
    words.end()?;
    sized(shards, f, clients)
}

/// The config that the line, with its LF, says.
pub(crate) fn config_in(line: &[u8]) -> Result<Config, LineFault>
    ensures { Gives (λ config. config) result (text.config_in line.now) }
{
    match text_of(line) {
        Some(text) => config_of(&mut LineWords::new(text)),
        None => Err(LineFault::Bad(Reason::End)),
    }
}
