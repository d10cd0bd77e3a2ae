//! A small machine: workers put numbers into mailboxes, look at them and take them out. It shows that the laws can be
//! met, what the definitions give for one log, and how a program computes them.

ghost use Rattle.std.specs.Prelude.{◌≡◌, ℕ, ◌<◌, length, IfOk, List, [], ◌∷◌, map, Some, None};
ghost use Rattle.gr_causal.specs.Dependence.{hits, kept, dependents, causes};
ghost use Rattle.gr_causal.specs.Machine.{Laws, IsLog, conflict};
ghost use Rattle.gr_causal.specs.OrderByNames.{ordered};
ghost use Rattle.gr_causal.specs.OrderByNames.Ordered.{accepted, other_steps, broken};
ghost use Rattle.gr_causal.specs.StepNames.{CountsSteps};
ghost use Rattle.gr_causal.specs.Mailboxes.{mailboxes, MailStep, start, count, owner, ordinal, name, same_name, changes, noted};
ghost use Rattle.gr_causal.specs.Mailboxes.{clash};
ghost use Rattle.gr_causal.specs.WorkedLog.{worked_log, final, puts_five, looks, puts_seven, looks_too, takes_five};

use std::alloc::{AllocError, Global};

/// What a worker does with a mailbox.
#[derive(Clone, Copy, PartialEq, Eq, Debug)]
pub enum Action {
    /// Puts a number into an empty mailbox.
    Put(u64),
    /// Takes the number out.
    Take,
    /// Sees the number, and leaves it there.
    Look,
}

impl Action {
    /// Whether the mailbox contains something else afterwards.
    pub fn changes_mailbox(self) -> bool
        ensures { result ≡ changes self }
    {
        match self {
            Action::Put(_) | Action::Take => true,
            Action::Look => false,
        }
    }
}

/// A step that a worker may take.
#[derive(Clone, Copy, PartialEq, Eq, Debug)]
pub struct Event {
    /// The number of the worker.
    pub worker: u32,
    /// The number of the mailbox.
    pub mailbox: u32,
    pub action: Action,
}

/// The two parts of a log where a step is taken back, each in log order.
#[derive(Drop)]
pub struct Parts {
    /// Those that do not depend on it.
    pub stay: Vec<Event>,
    /// The step and its dependents.
    pub gone: Vec<Event>,
}

/// Whether two steps conflict: one worker took both, or they share a mailbox and one of them changed it.
#[tactic(auto, using(crate::proofs::MailboxLemmas::clash_is))]
pub fn conflicts(first: &Event, second: &Event) -> bool
    ensures { result ≡ clash first.now second.now }
{
    first.worker == second.worker
        || first.mailbox == second.mailbox
            && (first.action.changes_mailbox() || second.action.changes_mailbox())
}

/// Whether a step conflicts with one of these.
pub fn depends_on(earlier: &[Event], event: &Event) -> bool
    ensures { result ≡ hits clash earlier.now event.now }
{
    for other in earlier {
        if conflicts(other, event) {
            return true;
        }
    }
    false
}

fn copies(alloc: Global, events: &[Event]) -> Result<Vec<Event>, AllocError>
    ensures { IfOk result (λ v. v.items ≡ events.now) }
{
    events.iter().copied().collect(alloc)
}

/// Parts a log by what depends on the step at a place, itself included. Its only error is that memory ran out.
pub fn parted(alloc: Global, log: &[Event], place: usize) -> Result<Parts, AllocError>
    requires { place < length log.now }
    ensures stay { IfOk result (λ parts. parts.stay.items ≡ kept clash log.now place) }
    ensures gone { IfOk result (λ parts. parts.gone.items ≡ dependents clash log.now place) }
{
    let mut stay = copies(alloc, &log[..place])?;
    let mut gone = vec![in alloc; log[place]]?;
    let later = &log[place + 1..];
    for event in later {
        if depends_on(&gone, event) {
            gone.push(*event)?;
        } else {
            stay.push(*event)?;
        }
    }
    Ok(Parts { stay, gone })
}

/// The machine of mailboxes meets the laws. Each of its steps notes how many steps its worker has taken. What a step touches
/// follows from its event: its worker and its mailbox. A `Look` does not write the mailbox.
pub fn mailboxes_are_a_machine()
    ensures laws { Laws mailboxes }
    ensures counts { CountsSteps mailboxes owner ordinal count }
    ensures notes { (s t : mailboxes.State) (e : Event) (n : mailboxes.Note)
        → mailboxes.step s e ≡ Some (t, n)
        → n ≡ noted e (count t e.worker) }
{}

/// Worker 0 puts 5 into mailbox 0, worker 1 sees it, worker 2 puts 7 into mailbox 1 and sees the 5, worker 3 takes the 5 out.
/// That `Take` depends on both looks at the 5, and neither look depends on the other.
pub fn worked_log_is_a_log()
    ensures log { IsLog mailboxes start worked_log final }
    ensures gone { dependents (conflict mailboxes) worked_log 1 ≡ looks ∷ takes_five ∷ [] }
    ensures stay { kept (conflict mailboxes) worked_log 1 ≡ puts_five ∷ puts_seven ∷ looks_too ∷ [] }
    ensures behind { causes (conflict mailboxes) worked_log 3 ≡ puts_five ∷ puts_seven ∷ looks_too ∷ [] }
{}

/// Three orders of the worked log. One respects dependence. One does not, since the 5 is taken out before it is seen. One
/// leaves a step out. A name is a worker and an ordinal.
pub fn worked_orders()
    ensures accepts { let names = (2, 1) ∷ (0, 1) ∷ (2, 2) ∷ (1, 1) ∷ (3, 1) ∷ [] in
        ordered (conflict mailboxes) name same_name names worked_log
        ≡ accepted (puts_seven ∷ puts_five ∷ looks_too ∷ looks ∷ takes_five ∷ []) }
    ensures breaks { let names = (2, 1) ∷ (0, 1) ∷ (3, 1) ∷ (2, 2) ∷ (1, 1) ∷ [] in
        ordered (conflict mailboxes) name same_name names worked_log ≡ broken looks takes_five }
    ensures refuses { let names = (0, 1) ∷ (1, 1) ∷ (2, 1) ∷ (2, 2) ∷ [] in
        ordered (conflict mailboxes) name same_name names worked_log ≡ other_steps }
{}

#[cfg(test)]
mod tests {
    use super::*;
    use std::test::Fail;

    #[test]
    fn a_taking_goes_back_with_the_looking_before_it(rt: HostRuntime) -> Result<(), Fail> {
        let event = |worker, mailbox, action| Event {
            worker,
            mailbox,
            action,
        };
        let log = [
            event(0, 0, Action::Put(5)),
            event(1, 0, Action::Look),
            event(2, 1, Action::Put(7)),
            event(2, 0, Action::Look),
            event(3, 0, Action::Take),
        ];
        let parts = parted(rt.alloc(), &log, 1)?;
        assert_eq!(rt; parts.stay.as_slice(), [log[0], log[2], log[3]].as_slice());
        assert_eq!(rt; parts.gone.as_slice(), [log[1], log[4]].as_slice());
        Ok(())
    }
}
