ghost use Rattle.std.specs.Prelude.{◌≡◌, ◌==◌, IfOk};
ghost use Rattle.eris_words.specs.Cuts.{words};
ghost use Rattle.eris_words.specs.Forms.{Gives};
ghost use Rattle.eris_check.specs.Drafts as draft;
ghost use Rattle.eris_check.specs.TextReading as text;

use crate::cutting::text_of;
use crate::replicas::replicas_of;
use crate::report_line::{Counts, ReportLine, line_of};
use eris_audit::OrderLine;
use eris_base::{Config, Epoch, NoMemory, ReplicaId, Row, ShardId};
use eris_event::{ReplicaLine, Report};
use eris_txn::HistoryEvent;
use eris_words::{LineFault, Reason};
use std::alloc::Global;

/// Which line was read last, the config's counting as one of the history.
#[derive(Clone, Copy, Debug, PartialEq, Eq)]
pub(crate) enum Stage {
    History,
    Order,
    Replicas,
    Coordinator,
    Sent,
    End,
}

/// A report of which the lines up to some line were read.
#[derive(Debug, Drop)]
pub(crate) struct Draft {
    pub stage: Stage,
    /// The replicas of the config, each of which has its line.
    pub due: Row<(ShardId, ReplicaId)>,
    pub report: Report,
}

impl Draft {
    /// A report of which only the config was read.
    pub fn new(alloc: Global, config: Config) -> Result<Draft, NoMemory>
        ensures { IfOk result (λ made. made ≡ draft.begun config) }
    {
        let due = replicas_of(alloc, &config)?;
        Ok(Draft {
            stage: Stage::History,
            due,
            report: Report {
                config,
                history: Row::new(alloc),
                order: Row::new(alloc),
                replicas: Row::new(alloc),
                current: Epoch(0),
                target: Epoch(0),
                found: 0,
                dropped: 0,
                sent: 0,
            },
        })
    }

    fn takes_event(&self) -> bool
        ensures { result ≡ draft.takes_event self.now.stage }
    {
        matches!(self.stage, Stage::History)
    }

    fn takes_order(&self) -> bool
        ensures { result ≡ draft.takes_order self.now.stage }
    {
        matches!(self.stage, Stage::History | Stage::Order)
    }

    fn takes_replica(&self) -> bool
        ensures { result ≡ draft.takes_replica self.now.stage }
    {
        matches!(self.stage, Stage::History | Stage::Order | Stage::Replicas)
    }

    /// Whether the last line was read.
    pub fn is_whole(&self) -> bool
        ensures { result ≡ draft.is_whole self.now.stage }
    {
        matches!(self.stage, Stage::End)
    }

    #[tactic(auto, unfolding(crate::specs::Drafts::with_event))]
    fn add_event(&mut self, event: HistoryEvent) -> Result<(), LineFault>
        ensures { Gives (λ _. self.new) result (draft.with_event self.old event) }
    {
        if !self.takes_event() {
            return Err(LineFault::Bad(Reason::Word));
        }
        self.report.history.push(event)?;
        Ok(())
    }

    #[tactic(auto, unfolding(crate::specs::Drafts::with_order))]
    fn add_order(&mut self, entry: OrderLine) -> Result<(), LineFault>
        ensures { Gives (λ _. self.new) result (draft.with_order self.old entry) }
    {
        if !self.takes_order() {
            return Err(LineFault::Bad(Reason::Word));
        }
        self.report.order.push(entry)?;
        self.stage = Stage::Order;
        Ok(())
    }

    fn is_due(&self, replica: &ReplicaLine) -> bool
        ensures { result ≡ draft.is_due (draft.due_next self.now) replica.now }
    {
        match self.due.as_slice().get(self.report.replicas.len()).copied() {
            Some((shard, number)) => shard.0 == replica.shard.0 && number.0 == replica.replica.0,
            None => false,
        }
    }

    #[tactic(auto, unfolding(crate::specs::Drafts::with_replica))]
    fn add_replica(&mut self, replica: ReplicaLine) -> Result<(), LineFault>
        ensures { Gives (λ _. self.new) result (draft.with_replica self.old replica) }
    {
        if !self.takes_replica() || !self.is_due(&replica) {
            return Err(LineFault::Bad(Reason::Word));
        }
        self.report.replicas.push(replica)?;
        self.stage = Stage::Replicas;
        Ok(())
    }

    #[tactic(auto, unfolding(crate::specs::Drafts::with_counts))]
    fn add_counts(&mut self, counts: Counts) -> Result<(), LineFault>
        ensures { Gives (λ _. self.new) result (draft.with_counts self.old counts) }
    {
        if !self.takes_replica() || self.report.replicas.len() != self.due.len() {
            return Err(LineFault::Bad(Reason::Word));
        }
        self.report.current = counts.current;
        self.report.target = counts.target;
        self.report.found = counts.found;
        self.report.dropped = counts.dropped;
        self.stage = Stage::Coordinator;
        Ok(())
    }

    #[tactic(auto, unfolding(crate::specs::Drafts::with_sent))]
    fn add_sent(&mut self, sent: u32) -> Result<(), LineFault>
        ensures { Gives (λ _. self.new) result (draft.with_sent self.old sent) }
    {
        match self.stage {
            Stage::Coordinator => {
                self.report.sent = sent;
                self.stage = Stage::Sent;
                Ok(())
            }
            _ => Err(LineFault::Bad(Reason::Word)),
        }
    }

    #[tactic(auto, unfolding(crate::specs::Drafts::with_end))]
    fn add_end(&mut self) -> Result<(), LineFault>
        ensures { Gives (λ _. self.new) result (draft.with_end self.old) }
    {
        match self.stage {
            Stage::Sent => {
                self.stage = Stage::End;
                Ok(())
            }
            _ => Err(LineFault::Bad(Reason::Word)),
        }
    }

    fn add(&mut self, line: ReportLine) -> Result<(), LineFault>
        ensures { Gives (λ _. self.new) result (draft.with_line self.old line) }
    {
        match line {
            ReportLine::Event(event) => self.add_event(event),
            ReportLine::Order(entry) => self.add_order(entry),
            ReportLine::Replica(replica) => self.add_replica(replica),
            ReportLine::Coordinator(counts) => self.add_counts(counts),
            ReportLine::Sent(sent) => self.add_sent(sent),
            ReportLine::End => self.add_end(),
        }
    }

    /// Reads one more line, with the LF that ends it.
    pub fn read(&mut self, alloc: Global, line: &[u8]) -> Result<(), LineFault>
        ensures { Gives (λ _. self.new) result (text.draft_with self.old line.now) }
    {
        match text_of(line) {
            Some(text) => {
                let said = line_of(alloc, text)?;
                self.add(said)
            }
            None => Err(LineFault::Bad(Reason::End)),
        }
    }
}
