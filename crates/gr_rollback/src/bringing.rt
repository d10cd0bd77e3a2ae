//! The pool of ready goroutines brought back before changes, by what these replaced.

ghost use Rattle.std.specs.Prelude.{◌≡◌, ◌∷◌, [], true, option_copied};
ghost use Rattle.gr_pool.specs.Goroutines.{is_among};
ghost use Rattle.gr_step.specs.Fews.{members};
ghost use Rattle.gr_step.specs.Parts.{begun_in};
ghost use Rattle.gr_step.specs.Records.{begun_by, goroutines_changed};
ghost use Rattle.gr_rollback.specs.Readiness.{AllKnown, names_met, met_by};
ghost use Rattle.gr_rollback.specs.Prior.{BringsBack, BringsStepBack, Loses};

use gr_base::GoName;
use gr_goros::{KeptUndo, Prior};
use gr_pool::Pool;
use gr_step::{Beyond, Form, Record};

/// Brings the pool back before a change of a goroutine that it knows. It takes no memory.
fn bring_back(pool: &mut Pool, go: &GoName, undo: &KeptUndo)
    requires { is_among go.now pool.old.known ≡ true }
    ensures { BringsBack ((go.now, undo.now) ∷ []) pool.old pool.new }
{
    match undo.prior() {
        Prior::Ready => pool.insert(go),
        Prior::Unready => pool.remove(go),
        Prior::Same => {}
    }
}

/// Brings the pool back before the changes of several goroutines, the last change first.
fn bring_all_back(pool: &mut Pool, changes: &[(GoName, KeptUndo)])
    requires { AllKnown (names_met changes.now) pool.old }
    ensures { BringsBack changes.now pool.old pool.new }
{
    let mut left = changes.len();
    while left > 0 {
        left -= 1;
        let (go, undo) = &changes[left];
        bring_back(pool, go, undo);
    }
}

/// Makes the goroutine of a name unready, if there is one.
fn lose(pool: &mut Pool, child: Option<&GoName>)
    ensures { Loses (option_copied child.entry) pool.old pool.new }
{
    if let Some(go) = child {
        pool.remove(go);
    }
}

/// Brings the pool back before a step that reached beyond its goroutine.
#[inline(never)]
fn bring_beyond_back(pool: &mut Pool, go: &GoName, own: &KeptUndo, beyond: &Beyond)
    requires own { is_among go.now pool.old.known ≡ true }
    requires met { AllKnown (names_met (members beyond.now.met)) pool.old }
    ensures { BringsStepBack ((go.now, own.now) ∷ members beyond.now.met) (begun_in beyond.now) pool.old pool.new }
{
    bring_all_back(pool, beyond.met.as_slice());
    bring_back(pool, go, own);
    lose(pool, beyond.begins());
}

/// Brings the pool back before changes of a goroutine and of the one that it met.
#[inline(never)]
fn bring_both_back(pool: &mut Pool, go: &GoName, own: &KeptUndo, met: &(GoName, KeptUndo))
    requires own { is_among go.now pool.old.known ≡ true }
    requires met { is_among met.now.0 pool.old.known ≡ true }
    ensures { BringsBack ((go.now, own.now) ∷ met.now ∷ []) pool.old pool.new }
{
    bring_back(pool, &met.0, &met.1);
    bring_back(pool, go, own);
}

/// Brings the pool back before a step, whose goroutine and those that it met are known. It takes no memory.
pub(crate) fn bring_step_back(pool: &mut Pool, step: &Record)
    requires own { is_among step.now.id.go pool.old.known ≡ true }
    requires met { AllKnown (met_by step.now.change) pool.old }
    ensures { BringsStepBack (goroutines_changed step.now.id.go step.now.change) (begun_by step.now.change) pool.old pool.new }
{
    let go = &step.id.go;
    match step.change.form() {
        Form::Alone(_, own) => bring_back(pool, go, own),
        Form::WaitsToSend(_, _, _) => pool.insert(go),
        Form::WaitsToReceive(_, _, _) => pool.insert(go),
        Form::Passes(_, passage) => bring_back(pool, go, &passage.own),
        Form::Exchanges(_, exchange) => {
            bring_both_back(pool, go, &exchange.passage.own, &exchange.met)
        }
        Form::Further(_, further) => bring_beyond_back(pool, go, &further.own, &further.beyond),
    }
}
