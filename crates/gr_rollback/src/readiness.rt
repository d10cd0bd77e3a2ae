//! Which goroutines are ready, kept in a pool beside the store.

ghost use Rattle.std.specs.Prelude.{◌≡◌, ◌∷◌, [], false, true, ◌↔◌, IsTrue, OnOk, option_copied};
ghost use Rattle.std.specs.Option.{option_to_list};
ghost use Rattle.gr_pool.specs.Goroutines.{is_among};
ghost use Rattle.gr_rules.specs.States.{same_go};
ghost use Rattle.gr_step.specs.Records.{begun_by};
ghost use Rattle.gr_step.specs.Stores.{contents_at};
ghost use Rattle.gr_rollback.specs.Readiness.{IsReadyIn, KeepsStatus, KnowsReady, KnowsThere, Settles, KnowsMore, AllKnown};
ghost use Rattle.gr_rollback.specs.Readiness.{names_met, others_of, met_by};

use gr_base::{GoName, NoMemory};
use gr_goros::{KeptUndo, Prior, Status};
use gr_pool::Pool;
use gr_step::{Change, Exchange, Form, Record, Store};

/// Whether a goroutine is there, and ready.
#[inline(always)]
fn is_ready(store: &Store, go: &GoName) -> bool
    ensures { IsTrue result ↔ IsReadyIn (contents_at store.now) go.now }
{
    match store.goroutine(go) {
        Some(goroutine) => match goroutine.status() {
            Status::Ready => true,
            _ => false,
        },
        None => false,
    }
}

/// Makes a goroutine ready in the pool where it is so in the store, and known then, and else not. It takes no memory.
#[inline(always)]
fn settle(pool: &mut Pool, store: &Store, go: &GoName)
    requires { KnowsReady (go.now ∷ []) (contents_at store.now) pool.old }
    ensures { Settles (go.now ∷ []) (contents_at store.now) pool.old pool.new }
{
    if is_ready(store, go) {
        pool.insert(go);
    } else {
        pool.remove(go);
    }
}

/// Makes the goroutine of a step, which was ready, unready where it is so in the store.
fn settle_own(pool: &mut Pool, store: &Store, go: &GoName)
    requires { is_among go.now pool.old.ready ≡ true }
    ensures { Settles (go.now ∷ []) (contents_at store.now) pool.old pool.new }
{
    if is_ready(store, go) {
        return;
    }
    pool.remove(go);
}

/// Makes the goroutine of a step unready where it is so in the store. The step neither met nor started that goroutine, which was
/// ready; what the step replaced tells of most that it is ready still.
fn settle_alone(pool: &mut Pool, store: &Store, go: &GoName, own: &KeptUndo)
    requires own { is_among go.now pool.old.ready ≡ true }
    requires ready { KeepsStatus own.now → IsReadyIn (contents_at store.now) go.now }
    ensures { Settles (go.now ∷ []) (contents_at store.now) pool.old pool.new }
{
    if let Prior::Same = own.prior() {
        return;
    }
    settle_own(pool, store, go);
}

/// Settles the goroutine of a step, which was ready, and the one that it met. What the step replaced in its own goroutine tells of
/// most that it is ready still.
fn settle_both(pool: &mut Pool, store: &Store, go: &GoName, exchange: &Exchange)
    requires own { is_among go.now pool.old.ready ≡ true }
    requires ready { same_go go.now exchange.now.met.0 ≡ false → KeepsStatus exchange.now.passage.own
        → IsReadyIn (contents_at store.now) go.now }
    requires met { is_among exchange.now.met.0 pool.old.known ≡ true }
    ensures { Settles (go.now ∷ exchange.now.met.0 ∷ []) (contents_at store.now) pool.old pool.new }
{
    let (partner, _) = &exchange.met;
    if go == partner {
        settle_own(pool, store, go);
    } else {
        settle_alone(pool, store, go, &exchange.passage.own);
    }
    settle(pool, store, partner);
}

/// Settles each of the goroutines that a step met.
fn settle_met(pool: &mut Pool, store: &Store, met: &[(GoName, KeptUndo)])
    requires { KnowsReady (names_met met.now) (contents_at store.now) pool.old }
    ensures { Settles (names_met met.now) (contents_at store.now) pool.old pool.new }
{
    for (go, _) in met {
        settle(pool, store, go);
    }
}

/// Settles the goroutine that a step started, if it started one.
fn settle_child(pool: &mut Pool, store: &Store, child: Option<&GoName>)
    requires { KnowsReady (option_to_list (option_copied child)) (contents_at store.now) pool.old }
    ensures { Settles (option_to_list (option_copied child.entry)) (contents_at store.now) pool.old pool.new }
{
    if let Some(go) = child {
        settle(pool, store, go);
    }
}

/// Makes the goroutine known that a step started, if it started one. Refused, nothing has changed.
pub(crate) fn know_child(pool: &mut Pool, change: &Change) -> Result<(), NoMemory>
    ensures known { OnOk result (AllKnown (option_to_list (begun_by change.now)) pool.new) }
    ensures more { KnowsMore pool.old pool.new }
    ensures ready { pool.new.ready ≡ pool.old.ready }
{
    let Form::Further(_, further) = change.form() else {
        return Ok(());
    };
    let Some(go) = further.beyond.begins() else {
        return Ok(());
    };
    pool.know(go)
}

/// Settles the goroutines that a step met, and the one that it started.
fn settle_others(pool: &mut Pool, store: &Store, step: &Record)
    requires met { KnowsReady (met_by step.now.change) (contents_at store.now) pool.old }
    requires child { KnowsReady (option_to_list (begun_by step.now.change)) (contents_at store.now) pool.old }
    ensures { Settles (others_of step.now.change) (contents_at store.now) pool.old pool.new }
{
    match step.change.form() {
        Form::Exchanges(_, exchange) => settle(pool, store, &exchange.met.0),
        Form::Further(_, further) => {
            let beyond = &further.beyond;
            settle_met(pool, store, beyond.met.as_slice());
            settle_child(pool, store, beyond.begins());
        }
        _ => {}
    }
}

/// Settles the goroutine of a step, which was ready, and those that the step met and started.
fn settle_further(pool: &mut Pool, store: &Store, step: &Record)
    requires own { is_among step.now.id.go pool.old.ready ≡ true }
    requires met { KnowsReady (met_by step.now.change) (contents_at store.now) pool.old }
    requires child { KnowsReady (option_to_list (begun_by step.now.change)) (contents_at store.now) pool.old }
    ensures { Settles (step.now.id.go ∷ others_of step.now.change) (contents_at store.now) pool.old pool.new }
{
    settle_own(pool, store, &step.id.go);
    settle_others(pool, store, step);
}

/// Settles the goroutine of a step and those that it met and started, where all that are there are known. It takes no memory.
#[inline(never)]
pub(crate) fn settle_again(pool: &mut Pool, store: &Store, step: &Record)
    requires { KnowsThere pool.old (contents_at store.now) }
    ensures { Settles (step.now.id.go ∷ others_of step.now.change) (contents_at store.now) pool.old pool.new }
{
    settle(pool, store, &step.id.go);
    settle_others(pool, store, step);
}

/// Brings the pool to what is ready after a step, whose goroutine was ready; those that it met and started are known. Where the
/// step met and started nobody, and its goroutine is ready still, the pool stays. It takes no memory.
pub(crate) fn settle_taken(pool: &mut Pool, store: &Store, step: &Record)
    requires own { is_among step.now.id.go pool.old.ready ≡ true }
    requires ready { is_among step.now.id.go (others_of step.now.change) ≡ false → KeepsStatus step.now.change.own
        → IsReadyIn (contents_at store.now) step.now.id.go }
    requires met { AllKnown (met_by step.now.change) pool.old }
    requires child { AllKnown (option_to_list (begun_by step.now.change)) pool.old }
    ensures { Settles (step.now.id.go ∷ others_of step.now.change) (contents_at store.now) pool.old pool.new }
{
    match step.change.form() {
        Form::Alone(_, own) => settle_alone(pool, store, &step.id.go, own),
        Form::WaitsToSend(_, _, _) | Form::WaitsToReceive(_, _, _) => {
            settle_own(pool, store, &step.id.go)
        }
        Form::Passes(_, passage) => settle_alone(pool, store, &step.id.go, &passage.own),
        Form::Exchanges(_, exchange) => settle_both(pool, store, &step.id.go, exchange),
        Form::Further(_, _) => settle_further(pool, store, step),
    }
}
