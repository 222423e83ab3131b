//! Facts under which a command is run.

ghost use Rattle.std.specs.Prelude.{◌≡◌, ◌++◌, ◌∷◌, [], IfOk, OnOk};
ghost use Rattle.ifs_parse.specs.Trees.{Done, RunThen};
ghost use Rattle.ifs_parse.specs.Views.{block_of, statement_then};
ghost use Rattle.ifs_claims.specs.inner.Reaching.{where_runs, IsBack};
ghost use Rattle.ifs_claims.specs.inner.Widening.{WidensAmong};
ghost use Rattle.ifs_solver.specs.FactSets.{fact_set_of, Within};

use crate::asking::ask_also_in;
use ifs_base::CommandId;
use ifs_parse::Statement;
use ifs_solver::{Budget, Constraint, Extent, FactSet, PolicyStatement};
use std::alloc::{AllocError, Global};

/// A search for facts that lead to a `run` of a command.
#[derive(Drop)]
pub(crate) struct Reach<'a> {
    pub alloc: Global,
    /// The facts that are looked at.
    pub set: &'a FactSet,
    pub command: CommandId,
    /// What leads to the present statement.
    pub context: Vec<Constraint<'a>>,
    pub budget: Budget,
}

impl<'a> Reach<'a> {
    /// Whether some facts pass the earlier test, or lead to a `run` in these statements.
    #[cycle(statements)]
    pub(crate) fn statements(
        &mut self,
        before: Extent,
        statements: &'a [PolicyStatement],
    ) -> Result<Extent, AllocError>
        ensures runs { IfOk result (λ after. WidensAmong (Within (fact_set_of self.old.set.now)) (where_runs self.old.context.items self.old.command (block_of statements.now)) before after) }
        ensures stays { OnOk result (IsBack self.old self.new) }
    {
        let mut extent = before;
        for statement in statements {
            extent = self.statement(extent, statement)?;
        }
        Ok(extent)
    }

    /// The same of one statement.
    #[cycle(statements)]
    fn statement(
        &mut self,
        before: Extent,
        statement: &'a PolicyStatement,
    ) -> Result<Extent, AllocError>
        ensures runs { IfOk result (λ after. WidensAmong (Within (fact_set_of self.old.set.now)) (where_runs self.old.context.items self.old.command (statement_then statement.now Done)) before after) }
        ensures stays { OnOk result (IsBack self.old self.new) }
    {
        match statement {
            Statement::Run(command) => {
                let after = self.command(before, *command)?;
                Ok(after)
            }
            Statement::SetState(_) => Ok(before),
            Statement::If(condition, inner) => {
                let is_true = Constraint::Truth(condition, true);
                let after = self.under(before, is_true, inner.statements())?;
                Ok(after)
            }
        }
    }

    /// The same of statements, under facts that meet a further constraint.
    #[cycle(statements)]
    pub(crate) fn under(
        &mut self,
        before: Extent,
        constraint: Constraint<'a>,
        statements: &'a [PolicyStatement],
    ) -> Result<Extent, AllocError>
        ensures runs { IfOk result (λ after. WidensAmong (Within (fact_set_of self.old.set.now)) (where_runs (self.old.context.items ++ constraint.entry ∷ []) self.old.command (block_of statements.now)) before after) }
        ensures stays { OnOk result (IsBack self.old self.new) }
    {
        self.context.push(constraint)?;
        let after = self.statements(before, statements)?;
        self.context.pop();
        Ok(after)
    }

    /// The same of a `run`.
    fn command(&mut self, before: Extent, command: CommandId) -> Result<Extent, AllocError>
        ensures runs { IfOk result (λ after. WidensAmong (Within (fact_set_of self.old.set.now)) (where_runs self.old.context.items self.old.command (RunThen command Done)) before after) }
        ensures stays { OnOk result (IsBack self.old self.new) }
    {
        if command.0 != self.command.0 {
            return Ok(before);
        }
        let context = self.context.as_slice();
        let after = ask_also_in(self.alloc, self.set, before, context, &mut self.budget)?;
        Ok(after)
    }
}
