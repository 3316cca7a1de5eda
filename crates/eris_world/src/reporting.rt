//! What a report tells of a world.
ghost use Rattle.std.specs.Prelude.{◌≡◌, false, IfOk};
ghost use Rattle.eris_rules.specs.Reports.{all_lines, report_of};

use crate::world::World;
use eris_base::{Dup, NoMemory, Row};
use eris_event::{ReplicaLine, Report};
use eris_nodes::count_of;
use eris_order_lines::order_lines;

impl World {
    /// What there is to tell of the world: its history, the order of its transactions, and its nodes.
    ///
    /// # Errors
    ///
    /// [`NoMemory`] where an allocation was refused.
    #[tactic(auto, unfolding(eris_rules::specs::Reports::report_of, eris_rules::specs::WorldOrders::lines_of_world))]
    pub fn report(&self) -> Result<Report, NoMemory>
        requires { self.now.spent ≡ false }
        ensures { IfOk result (λ report. report ≡ report_of self.now.config self.now.state) }
    {
        let order = self.order()?;
        let lines = order_lines(self.alloc, order.as_slice())?;
        let replicas = self.replica_lines()?;
        Ok(Report {
            config: self.config,
            history: self.history.copy(self.alloc)?,
            order: lines,
            replicas,
            current: self.coordinator.current(),
            target: self.coordinator.target(),
            found: count_of(self.coordinator.found().len())?,
            dropped: count_of(self.coordinator.dropped().len())?,
            sent: self.network.sent(),
        })
    }

    fn replica_lines(&self) -> Result<Row<ReplicaLine>, NoMemory>
        requires { self.now.spent ≡ false }
        ensures { IfOk result (λ lines. lines ≡ all_lines self.now.state 0 self.now.state.replicas) }
    {
        self.replicas.lines(self.crashed.as_slice())
    }
}
