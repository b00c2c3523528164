//! What a run is of.

ghost use Rattle.std.specs.Prelude.{◌≡◌, length};
ghost use Rattle.chare_base.specs.Elements.{elements};
ghost use Rattle.fault_script.specs.Lines.{faults_of};
ghost use Rattle.world_core.specs.Steps.{setting};

use chare_base::placement::Placement;
use chare_base::plan::Plan;
use fault_script::script::Script;
use std::marker::Model;

/// What a run is of: its plan, its script, and the node on which each element lives. All that happens in a run is given
/// the one that it was started with. Contracts see a `Setting` of `specs/Worlds`.
#[derive(Drop)]
pub struct Setting<'a, M: Placement> {
    pub(crate) plan: &'a Plan,
    pub(crate) script: &'a Script,
    pub(crate) map: &'a M,
    // Each element lives on a node.
    ghost placed: { length (M.place map.now) ≡ elements plan.now },
}

impl<'a, M: Placement> Model for Setting<'a, M> {
    ghost use Rattle.std.specs.Coded.{codes};
    ghost use Rattle.chare_base.specs.contracts.expression.Expr as expr;
    ghost use Rattle.chare_base.specs.contracts.plan.Stmt as stmt;
    ghost use Rattle.fault_script.specs.Lines.{faults_of};
    ghost use Rattle.world_core.specs.Steps.{setting};
    ghost use Rattle.world_core.specs.Worlds.{Setting};

    ghost Value = { Setting };

    ghost coded = { Prim.hlevel (codes, expr.the_row.coded, stmt.the_row.coded) };

    ghost view = { λ s. setting s.plan.now (faults_of s.script.now) (M.place s.map.now) (M.count s.map.now) };
}

impl<'a, M: Placement> Setting<'a, M> {
    /// The setting of a plan, a script and a placement of the plan's elements.
    pub fn new(plan: &'a Plan, script: &'a Script, map: &'a M) -> Setting<'a, M>
        requires { length (M.place map.now) ≡ elements plan.now }
        ensures { result ≡ setting plan.now (faults_of script.now) (M.place map.now)
            (M.count map.now) }
    {
        Setting { plan, script, map }
    }

    /// How many nodes a replica has.
    pub fn nodes(&self) -> u16
        ensures { result ≡ self.now.nodes }
    {
        self.map.nodes()
    }
}
