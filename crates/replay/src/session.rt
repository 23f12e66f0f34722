// A plan, and the lists that it is evaluated in, between one record and the next.
ghost use Rattle.std.specs.Prelude.{◌≡◌, ◌≤◌, [], length, IfOk};
ghost use Rattle.plans.specs.Model.{reply, after, Add};
ghost use Rattle.plans.specs.Passes.{passes};
ghost use Rattle.records.specs.Reading.{entry, Whole};
ghost use Rattle.rules.specs.Automaton.{automaton};
ghost use Rattle.printing.specs.Puts.{Puts};
ghost use Rattle.replay.specs.Answers.{record_line, record_plan, read_line, read_plan, closing_line, change_reply, change_plan, settling_of, scale_line, question_line};
ghost use Rattle.replay.specs.Fields.{forecasts_of};
ghost use Rattle.replay.specs.Lines.{Carries};
ghost use Rattle.replay.specs.Questions.{question_of};

use crate::fields::{forecasts, is_up};
use crate::question::{Question, RuleKind, ScaleKind};
use crate::unanswered::Unanswered;
use crate::work::Lists;
use plans::Plan;
use printing::{put_end, put_refusal};
use records::{Record, Unread};
use refusals::Refusal;
use rules::{Linear, Rule};
use scales::{Count, Counting};
use std::alloc::{AllocError, Global};

// The places of a work list: as many as a rule has states at most.
const PLACES: usize = 4096;

#[derive(Drop)]
pub(super) struct Session {
    plan: Plan,
    counts: Lists<Count, PLACES>,
}

impl Session {
    // An empty plan.
    pub(super) fn new(alloc: Global) -> Result<Session, AllocError>
        ensures { IfOk result (λ session. passes session.plan ≡ []) }
    {
        Ok(Session {
            plan: Plan::make(),
            counts: Lists::new(alloc)?,
        })
    }

    // Answers what a reader hands out: does what a record asks, and prints its line, if it has one.
    pub(super) fn answer(
        &mut self,
        read: Result<Record<'_>, Unread>,
        out: &mut String,
    ) -> Result<(), AllocError>
        requires { IfOk read (λ r. Whole (entry r)) }
        ensures text { Puts result out.old out.new (read_line read.entry (passes self.old.plan)) }
        ensures after { passes self.new.plan ≡ read_plan read.entry (passes self.old.plan) }
    {
        match read {
            Ok(record) => self.answer_record(record, out),
            Err(unread) => put_refusal(unread.place, unread.reason, out),
        }
    }

    // Prints the last line.
    pub(super) fn close(&self, out: &mut String) -> Result<(), AllocError>
        ensures { Puts result out.old out.new (closing_line (passes self.now.plan)) }
    {
        put_end(self.plan.parts(), self.plan.passes(), out)
    }

    // A record that is declined prints its refusal.
    fn answer_record(&mut self, record: Record<'_>, out: &mut String) -> Result<(), AllocError>
        requires { Whole (entry «record») }
        ensures text { Puts result out.old out.new (record_line (entry «record».entry) (passes self.old.plan)) }
        ensures after { passes self.new.plan ≡ record_plan (entry «record».entry) (passes self.old.plan) }
    {
        match self.carry_out(record, out) {
            Ok(()) => Ok(()),
            Err(Unanswered::Declined(reason)) => put_refusal(record.place(), reason, out),
            Err(Unanswered::Memory(error)) => Err(error),
        }
    }

    // Does what a record asks. A call on the plan that is accepted prints nothing.
    // By a `match`, and not by a table of closures: each case takes its body as a type of its own.
    fn carry_out(&mut self, record: Record<'_>, out: &mut String) -> Result<(), Unanswered>
        requires { Whole (entry «record») }
        ensures text { Carries result out.old out.new (entry «record».entry).place (record_line (entry «record».entry) (passes self.old.plan)) }
        ensures after { passes self.new.plan ≡ record_plan (entry «record».entry) (passes self.old.plan) }
    {
        match record {
            Record::Add { body, .. } => self.add(body)?,
            Record::Settle { body, .. } => self.settle(body.as_array().unwrap())?,
            Record::Drop { .. } => self.plan.drop_last()?,
            Record::Evaluate { place, body } => self.evaluate(
                place,
                body.as_array().unwrap(),
                out,
            )?,
        }
        Ok(())
    }

    // Adds the pass that a record describes.
    fn add(&mut self, body: &[u8]) -> Result<(), Refusal>
        requires { length body.now ≤ 32 }
        ensures reply { result ≡ reply (Add (forecasts_of body.now)) (passes self.old.plan) }
        ensures after { passes self.new.plan ≡ after (Add (forecasts_of body.now)) (passes self.old.plan) }
    {
        self.plan.add(&forecasts(body))
    }

    // Settles the part that a record names.
    fn settle(&mut self, body: &[u8; 4]) -> Result<(), Refusal>
        ensures reply { result ≡ change_reply (settling_of body.now) (passes self.old.plan) }
        ensures after { passes self.new.plan ≡ change_plan (settling_of body.now) (passes self.old.plan) }
    {
        let [high, low, part, outcome] = *body;
        let pass = u16::from_be_bytes([high, low]);
        let up = is_up(outcome)?;
        self.plan.settle(usize::from(pass), usize::from(part), up)
    }

    // Evaluates the plan as a record asks, by the rule that it names, and prints the line.
    // Place and text are two parameters from here on: a struct of them would be made for one line, and taken apart to print it.
    fn evaluate(&mut self, place: usize, body: &[u8; 3], out: &mut String) -> Result<(), Unanswered>
        ensures text { Carries result out.old out.new place (question_line place (passes self.old.plan) (question_of body.now)) }
        ensures same { self.new.plan ≡ self.old.plan }
    {
        let asked = Question::try_from(body)?;
        // Each rule has a type of its own, and is made in its arm.
        match asked.rule {
            RuleKind::Linear => {
                let rule = Linear::new(asked.k)?;
                self.evaluate_on(asked.scale, &rule, place, out)
            }
        }
    }

    // On the scale that is asked for. The lists of each scale have a type of their own, so each has an arm.
    fn evaluate_on<R: Rule>(
        &mut self,
        scale: ScaleKind,
        rule: &R,
        place: usize,
        out: &mut String,
    ) -> Result<(), Unanswered>
        ensures text { Carries result out.old out.new place (scale_line place (passes self.old.plan) (automaton R.Rule rule.now) scale) }
        ensures same { self.new.plan ≡ self.old.plan }
    {
        match scale {
            ScaleKind::Count => self
                .counts
                .put_evaluation(&self.plan, rule, &Counting, place, out),
        }
    }
}
