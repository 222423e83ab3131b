//! What makes an answer so: which conditions lead to a place, and which of these suffice.

ghost use Rattle.std.specs.Prelude.{◌≡◌, ◌++◌, ◌∷◌, [], OnOk, map};
ghost use Rattle.std.specs.List.{flat_map};
ghost use Rattle.ifs_solver.specs.Places.{places_of};
ghost use Rattle.ifs_lint.specs.inner.Marking.{block_kinds, kind_of_place, operand_kinds, own_kinds, part_kinds, statement_kinds};
ghost use Rattle.ifs_lint.specs.declared.marks.Kind.TheVariants as kinds;

use crate::marks::{Kind, is_chain, joins};
use ifs_parse::{Condition, Node, Statement};
use ifs_play::situations_of;
use ifs_policy::{Handlers, Policy, PolicyBlock, Single};
use ifs_solver::{Answer, Budget, Constraint, Extent, PolicyStatement, Scope, ask};
use std::alloc::{AllocError, Global};

/// How many parts of conditions and blocks the questions on causes may look at.
const PARTS: usize = 3_000_000;

/// A condition that makes an answer so: the number of its place, and whether it holds there.
#[derive(Clone, Copy, Debug, PartialEq, Eq)]
pub(crate) struct Cause {
    pub place: usize,
    pub holds: bool,
}

/// An answer that names a defect, with what makes it so.
#[derive(Drop)]
pub(crate) struct Reason {
    /// The number of its place.
    pub place: usize,
    pub answer: Answer,
    /// It follows from these together. They are in the order of the text.
    pub causes: Vec<Cause>,
    /// The number of a later `set-state` that is reached too, if a single one suffices.
    pub later: Option<usize>,
}

/// A demand on the facts that lead to a place, and its cause if it has a place.
#[derive(Clone, Copy)]
struct Link<'a> {
    demand: Constraint<'a>,
    cause: Option<Cause>,
}

/// A `set-state` that a later one overrules: the number of its reason, and the number of demands of the block that it is in,
/// or of the innermost one around it that has not ended.
#[derive(Clone, Copy)]
struct Pending {
    reason: usize,
    depth: usize,
}

/// A walk over the places of a policy.
#[derive(Drop)]
struct Walk<'a, 'b> {
    alloc: Global,
    scope: Scope,
    answers: &'b [Answer],
    context: Vec<Link<'a>>,
    pending: Vec<Pending>,
    budget: Budget,
    reasons: Vec<Reason>,
}

/// Passes a place of this kind. Returns its number: as many places were passed before it.
fn pass(kind: Kind, passed: &mut Vec<Kind>) -> Result<usize, AllocError>
    ensures { OnOk result (passed.new.items ≡ passed.old.items ++ kind ∷ []) }
{
    let place = passed.len();
    passed.push(kind)?;
    Ok(place)
}

impl<'a, 'b> Walk<'a, 'b> {
    /// The answer for a place.
    fn answer(&self, place: usize) -> Answer {
        match self.answers.get(place) {
            Some(answer) => *answer,
            None => Answer::Used,
        }
    }

    /// Goes over a condition or an operand. Returns its number.
    fn test(
        &mut self,
        condition: &'a Condition<Single>,
        passed: &mut Vec<Kind>,
    ) -> Result<usize, AllocError>
        ensures { OnOk result (passed.new.items ≡ passed.old.items ++ kinds.Test ∷ []) }
    {
        let place = pass(Kind::Test, passed)?;
        self.note_test(place, condition)?;
        Ok(place)
    }

    /// Keeps a reason if a condition or an operand is never or always true.
    fn note_test(
        &mut self,
        place: usize,
        condition: &'a Condition<Single>,
    ) -> Result<(), AllocError> {
        let answer = self.answer(place);
        match answer {
            Answer::Never => self.put(place, answer, Some(Constraint::Truth(condition, true))),
            Answer::Always => self.put(place, answer, Some(Constraint::Truth(condition, false))),
            _ => Ok(()),
        }
    }

    /// Goes over a `run`.
    fn command(&mut self, passed: &mut Vec<Kind>) -> Result<(), AllocError>
        ensures { OnOk result (passed.new.items ≡ passed.old.items ++ kinds.Command ∷ []) }
    {
        let place = pass(Kind::Command, passed)?;
        self.note_unreached(place)?;
        Ok(())
    }

    /// Goes over a `set-state`.
    fn wish(&mut self, passed: &mut Vec<Kind>) -> Result<(), AllocError>
        ensures { OnOk result (passed.new.items ≡ passed.old.items ++ kinds.Wish ∷ []) }
    {
        let place = pass(Kind::Wish, passed)?;
        self.resolve(place);
        self.note_unreached(place)?;
        self.note_overruled(place)?;
        Ok(())
    }

    /// Keeps a reason if no facts lead to a place.
    fn note_unreached(&mut self, place: usize) -> Result<(), AllocError> {
        match self.answer(place) {
            Answer::Unreached => self.put(place, Answer::Unreached, None),
            _ => Ok(()),
        }
    }

    /// Keeps a reason if a later `set-state` overrules the one at a place.
    fn note_overruled(&mut self, place: usize) -> Result<(), AllocError> {
        match self.answer(place) {
            Answer::Overruled => self.put_overruled(place),
            _ => Ok(()),
        }
    }

    /// Keeps a reason with its causes. Facts that lead there and meet a further demand are none.
    fn put(
        &mut self,
        place: usize,
        answer: Answer,
        further: Option<Constraint<'a>>,
    ) -> Result<(), AllocError> {
        let causes = causes_of(
            self.alloc,
            self.scope,
            self.context.as_slice(),
            further,
            &mut self.budget,
        )?;
        self.reasons.push(Reason {
            place,
            answer,
            causes,
            later: None,
        })?;
        Ok(())
    }

    /// Keeps a `set-state` that a later one overrules.
    fn put_overruled(&mut self, place: usize) -> Result<(), AllocError> {
        self.pending.push(Pending {
            reason: self.reasons.len(),
            depth: self.context.len(),
        })?;
        self.reasons.push(Reason {
            place,
            answer: Answer::Overruled,
            causes: Vec::new(self.alloc),
            later: None,
        })?;
        Ok(())
    }

    /// Notes a `set-state` that is reached wherever an earlier one of its block was.
    fn resolve(&mut self, place: usize) {
        let depth = self.context.len();
        for pending in &self.pending {
            if pending.depth == depth {
                if let Some(reason) = self.reasons.get_mut(pending.reason) {
                    reason.later = Some(reason.later.unwrap_or(place));
                }
            }
        }
    }

    /// Goes back to the demands of a block.
    fn leave(&mut self, depth: usize) {
        self.context.truncate(depth);
        for pending in self.pending.iter_mut() {
            pending.depth = pending.depth.min(depth);
        }
    }

    /// Goes over statements.
    #[cycle(block)]
    fn block(&mut self, block: &'a PolicyBlock, passed: &mut Vec<Kind>) -> Result<(), AllocError>
        ensures { OnOk result (passed.new.items ≡ passed.old.items ++ block_kinds block.now) }
    {
        for statement in block.statements() {
            self.statement(statement, passed)?;
        }
        Ok(())
    }

    /// Goes over a statement.
    #[cycle(block)]
    fn statement(
        &mut self,
        statement: &'a PolicyStatement,
        passed: &mut Vec<Kind>,
    ) -> Result<(), AllocError>
        ensures { OnOk result (passed.new.items ≡ passed.old.items ++ statement_kinds statement.now) }
    {
        match statement {
            Statement::Run(_) => {
                self.command(passed)?;
                Ok(())
            }
            Statement::SetState(_) => {
                self.wish(passed)?;
                Ok(())
            }
            Statement::If(condition, inner) => {
                let depth = self.context.len();
                self.enter(condition, passed)?;
                self.block(inner, passed)?;
                self.leave(depth);
                Ok(())
            }
        }
    }

    /// Goes over a condition, and to where it holds.
    fn enter(
        &mut self,
        condition: &'a Condition<Single>,
        passed: &mut Vec<Kind>,
    ) -> Result<(), AllocError>
        ensures { OnOk result (passed.new.items ≡ passed.old.items ++ (kinds.Test ∷ operand_kinds condition.now)) }
    {
        let place = self.test(condition, passed)?;
        self.operands(condition, passed)?;
        self.go_on(true, Some(place), condition)?;
        Ok(())
    }

    /// Goes over an operand of a chain, or over several first ones, and to where they do not decide.
    #[cycle(operands)]
    fn operand(
        &mut self,
        deciding: bool,
        several: bool,
        operand: &'a Condition<Single>,
        passed: &mut Vec<Kind>,
    ) -> Result<(), AllocError>
        ensures { OnOk result (passed.new.items ≡ passed.old.items ++ (own_kinds several ++ operand_kinds operand.now)) }
    {
        let place = self.own(several, operand, passed)?;
        self.operands(operand, passed)?;
        self.go_on(!deciding, place, operand)?;
        Ok(())
    }

    /// Goes over the operands in a condition.
    #[cycle(operands)]
    fn operands(
        &mut self,
        condition: &'a Condition<Single>,
        passed: &mut Vec<Kind>,
    ) -> Result<(), AllocError>
        ensures { OnOk result (passed.new.items ≡ passed.old.items ++ operand_kinds condition.now) }
    {
        let node = condition.node();
        match node {
            Node::Leaf(_) => Ok(()),
            Node::Not(operand) => {
                self.operands(operand, passed)?;
                Ok(())
            }
            Node::All(first, second, rest) | Node::Any(first, second, rest) => {
                let deciding = joins(node);
                let depth = self.context.len();
                self.operand(deciding, is_chain(deciding, first), first, passed)?;
                self.operand(deciding, false, second, passed)?;
                for operand in rest {
                    self.operand(deciding, false, operand, passed)?;
                }
                self.context.truncate(depth);
                Ok(())
            }
        }
    }

    /// Goes over an operand itself. Several first ones have no place.
    fn own(
        &mut self,
        several: bool,
        operand: &'a Condition<Single>,
        passed: &mut Vec<Kind>,
    ) -> Result<Option<usize>, AllocError>
        ensures { OnOk result (passed.new.items ≡ passed.old.items ++ own_kinds several) }
    {
        if several {
            return Ok(None);
        }
        let place = self.test(operand, passed)?;
        Ok(Some(place))
    }

    /// Goes to where a condition or an operand holds, or does not hold.
    fn go_on(
        &mut self,
        holds: bool,
        place: Option<usize>,
        operand: &'a Condition<Single>,
    ) -> Result<(), AllocError> {
        let cause = match place {
            Some(place) => Some(Cause { place, holds }),
            None => None,
        };
        self.context.push(Link {
            demand: Constraint::Truth(operand, holds),
            cause,
        })?;
        Ok(())
    }

    /// Goes over an `init`, and then over a body.
    fn part(&mut self, part: &'a Handlers, passed: &mut Vec<Kind>) -> Result<(), AllocError>
        ensures { OnOk result (passed.new.items ≡ passed.old.items ++ part_kinds part.now) }
    {
        self.block(&part.init, passed)?;
        self.begin_body(&part.body)?;
        self.block(&part.body, passed)?;
        self.end_part();
        Ok(())
    }

    /// Goes to where a body is not held back.
    fn begin_body(&mut self, body: &'a PolicyBlock) -> Result<(), AllocError> {
        self.pending.clear();
        self.context.push(Link {
            demand: Constraint::Free(body),
            cause: None,
        })?;
        Ok(())
    }

    /// Ends a part.
    fn end_part(&mut self) {
        self.pending.clear();
        self.context.clear();
    }

    /// Goes over the parts of states.
    fn parts(&mut self, parts: &'a [Handlers], passed: &mut Vec<Kind>) -> Result<(), AllocError>
        ensures { OnOk result (passed.new.items ≡ passed.old.items ++ flat_map part_kinds parts.now) }
    {
        for part in parts {
            self.part(part, passed)?;
        }
        Ok(())
    }

    /// Goes over all places of a policy.
    fn policy(&mut self, policy: &'a Policy, passed: &mut Vec<Kind>) -> Result<(), AllocError>
        // They are those of `judge_places`, in its order.
        ensures { OnOk result (passed.new.items ≡ passed.old.items ++ map kind_of_place (places_of policy.now)) }
    {
        self.part(policy.always(), passed)?;
        self.parts(policy.states(), passed)?;
        Ok(())
    }
}

/// The causes among some links: the nearest ones that suffice, so that facts that meet all of them and a further demand are
/// none. There is none if the further demand alone is met by no facts.
fn causes_of(
    alloc: Global,
    scope: Scope,
    links: &[Link<'_>],
    further: Option<Constraint<'_>>,
    budget: &mut Budget,
) -> Result<Vec<Cause>, AllocError> {
    let mut kept = vec![in alloc; true; links.len()]?;
    leave_out(alloc, scope, links, further, &mut kept, budget)?;
    causes_among(alloc, links, kept.as_slice())
}

/// Leaves out each link without which the others still suffice.
fn leave_out(
    alloc: Global,
    scope: Scope,
    links: &[Link<'_>],
    further: Option<Constraint<'_>>,
    kept: &mut Vec<bool>,
    budget: &mut Budget,
) -> Result<(), AllocError> {
    for index in 0..links.len() {
        mark(kept, index, false);
        if !suffice(alloc, scope, links, kept.as_slice(), further, budget)? {
            mark(kept, index, true);
        }
    }
    Ok(())
}

/// Whether no facts meet the demands of the links that are kept, and a further one.
fn suffice(
    alloc: Global,
    scope: Scope,
    links: &[Link<'_>],
    kept: &[bool],
    further: Option<Constraint<'_>>,
    budget: &mut Budget,
) -> Result<bool, AllocError> {
    let demands = demands_of(alloc, links, kept, further)?;
    let extent = ask(alloc, scope, demands.as_slice(), budget)?;
    Ok(matches!(extent, Extent::Nowhere))
}

/// The causes of the links that are kept.
fn causes_among(
    alloc: Global,
    links: &[Link<'_>],
    kept: &[bool],
) -> Result<Vec<Cause>, AllocError> {
    let mut causes = Vec::new(alloc);
    for (link, is_kept) in links.iter().zip(kept) {
        if let (Some(cause), true) = (link.cause, *is_kept) {
            causes.push(cause)?;
        }
    }
    Ok(causes)
}

/// Sets a member, if there is one.
fn mark(kept: &mut Vec<bool>, index: usize, value: bool) {
    if let Some(member) = kept.get_mut(index) {
        *member = value;
    }
}

/// The demands of the links that are kept, and a further one.
fn demands_of<'a>(
    alloc: Global,
    links: &[Link<'a>],
    kept: &[bool],
    further: Option<Constraint<'a>>,
) -> Result<Vec<Constraint<'a>>, AllocError> {
    let mut demands = Vec::new(alloc);
    put_demands(&mut demands, links, kept)?;
    if let Some(demand) = further {
        demands.push(demand)?;
    }
    Ok(demands)
}

/// Adds the demands of the links that are kept.
fn put_demands<'a>(
    demands: &mut Vec<Constraint<'a>>,
    links: &[Link<'a>],
    kept: &[bool],
) -> Result<(), AllocError> {
    for (link, is_kept) in links.iter().zip(kept) {
        if *is_kept {
            demands.push(link.demand)?;
        }
    }
    Ok(())
}

/// The answers of `judge_places` that name a defect, with what makes them so. The questions on causes have a budget of their
/// own: where it runs out, all conditions that lead to a place are its causes.
pub(crate) fn reasons_of(
    alloc: Global,
    policy: &Policy,
    answers: &[Answer],
) -> Result<Vec<Reason>, AllocError> {
    let mut walk = Walk {
        alloc,
        scope: Scope::of(policy),
        answers,
        context: Vec::new(alloc),
        pending: Vec::new(alloc),
        budget: Budget::POLICY.within(situations_of(policy, PARTS)),
        reasons: Vec::new(alloc),
    };
    let mut passed = Vec::new(alloc);
    walk.policy(policy, &mut passed)?;
    Ok(walk.reasons)
}
