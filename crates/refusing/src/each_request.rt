//! Runs a test once for each request for memory, which is refused.

ghost use Rattle.std.specs.Prelude.{Err, ◌≡◌, ◌≢◌, ◌⊎◌, ℕ, ◌<◌, ◌≤◌, true, false, IfNone, IfSome, OnOk};
ghost use Rattle.refusing.specs.declared.each_request.Outcome.{Outcome};
ghost use Rattle.refusing.specs.declared.each_request.Outcome.TheVariants.{Right, Wrong, OutOfMemory};

use crate::Refusing;
use std::alloc::Global;
use thiserror::Error;

/// What one run of a test returned.
#[derive(Clone, Copy, Debug, PartialEq, Eq)]
pub enum Outcome {
    /// The complete answer.
    Right,
    /// Another answer, or a fault other than out of memory; or something changed that must not.
    Wrong,
    /// Out of memory, and everything that must stay unchanged did.
    OutOfMemory,
}

impl Outcome {
    /// For a run that did not run out of memory: whether its answer is the complete one.
    pub fn of(is_right: bool) -> Self
        ensures right { is_right ≡ true → result ≡ Right }
        ensures wrong { is_right ≡ false → result ≡ Wrong }
    {
        if is_right {
            Outcome::Right
        } else {
            Outcome::Wrong
        }
    }

    /// For a run that ran out of memory: whether everything that must stay unchanged did.
    pub fn refused(is_as_before: bool) -> Self
        ensures kept { is_as_before ≡ true → result ≡ OutOfMemory }
        ensures changed { is_as_before ≡ false → result ≡ Wrong }
    {
        if is_as_before {
            Outcome::OutOfMemory
        } else {
            Outcome::Wrong
        }
    }
}

/// What is wrong with the runs of a test.
#[derive(Clone, Copy, Debug, PartialEq, Eq, Error)]
pub enum Complaint {
    /// A run did not return the complete answer, and was not out of memory.
    #[error("a wrong answer")]
    WrongAnswer,
    /// A run was out of memory although no request was refused.
    #[error("out of memory, and no request was refused")]
    NoRefusal,
    /// The first run without a refusal came too early.
    #[error("too few requests")]
    TooFew,
    /// Every run met a refusal.
    #[error("a request was refused in each run")]
    Endless,
}

// No run makes this many requests.
const MANY: u64 = 200;

// What is wrong with a run; `None` if nothing is.
fn judge(outcome: Outcome, has_refused: bool) -> Option<Complaint>
    ensures right { IfNone result (has_refused ≡ false → outcome ≡ Right) }
    ensures not_wrong { IfNone result (outcome ≢ Wrong) }
    ensures blamed { IfSome result (λ c. ((c ≡ Complaint.WrongAnswer) × (outcome ≡ Wrong)) ⊎ ((c ≡ Complaint.NoRefusal) × (outcome ≡ OutOfMemory) × (has_refused ≡ false))) }
{
    match outcome {
        Outcome::Right => None,
        Outcome::Wrong => Some(Complaint::WrongAnswer),
        Outcome::OutOfMemory if has_refused => None,
        Outcome::OutOfMemory => Some(Complaint::NoRefusal),
    }
}

/// Refuses the first request of a run for memory, then the second, and so on, until a run meets no refusal. A run that
/// is out of memory must have met one, and every other run must return the complete answer.
///
/// # Errors
///
/// What is wrong with a run; `TooFew` if fewer than `least` other runs came before the one without a refusal, and
/// `Endless` if every run of many met a refusal.
// The run is a `dyn`, so that this loop is proved and built once, and not for each test.
pub fn refuse_each(
    global: Global,
    least: u64,
    run: &dyn Fn(&Refusing<Global>) -> Outcome,
) -> Result<(), Complaint>
    requires { IsAlwaysCallable run.now }
    // The last run, which met no refusal, returned the complete answer.
    ensures last { OnOk result ((refusing : _) × (least < refusing.now.nth) × post run.now refusing Right) }
    // No run before it returned a wrong one.
    ensures each { OnOk result ((n : ℕ) → 1 ≤ n → n ≤ least → (refusing : _) × (outcome : Outcome) × (refusing.now.nth ≡ n) × (outcome ≢ Wrong) × post run.now refusing outcome) }
    // The complaint holds for some run.
    ensures wrong { result ≡ Err Complaint.WrongAnswer → (refusing : _) × post run.now refusing Wrong }
    ensures memory { result ≡ Err Complaint.NoRefusal → (refusing : _) × post run.now refusing OutOfMemory }
    ensures few { result ≡ Err Complaint.TooFew → (refusing : _) × (refusing.now.nth ≤ least) × post run.now refusing Right }
{
    for nth in 1..MANY {
        let refusing = Refusing::new(global, nth);
        let outcome = run(&refusing);
        let has_refused = refusing.has_refused();
        if let Some(complaint) = judge(outcome, has_refused) {
            return Err(complaint);
        }
        if has_refused {
            continue;
        }
        if nth <= least {
            return Err(Complaint::TooFew);
        }
        return Ok(());
    }
    Err(Complaint::Endless)
}
