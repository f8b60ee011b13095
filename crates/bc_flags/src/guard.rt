// Guards as tests of a mask.

ghost use Rattle.std.specs.Prelude.{◌≡◌, ℕ, ◌+◌, ◌^◌, ◌<◌, ◌≤◌, Bool, ◌&&◌, ◌||◌, IfOk};
ghost use Rattle.bc_data.specs.Guard.{is_set, guard_truth};
ghost use Rattle.bc_data.specs.ProgramView.{view_flag_expr};
ghost use Rattle.bc_flags.specs.Met.{is_met, test_count, leaf_count, agree, joined};

use bc_data::program::FlagExpr;
use bc_steps::Steps;
use std::alloc::{AllocError, Global};
use std::marker::Model;
use std::sync::ledger::Ledger;

/// How many flags a mask has.
const FLAGS: u32 = 32;

/// What a run of tests asks: all of them, or any.
#[derive(Clone, Copy)]
enum Run {
    All,
    Any,
}

/// A guard whose `!` has been carried down to its flags. `All` is met where each bit of the first mask is 1 and each of
/// the second 0, `Any` where some bit of the first is 1 or some bit of the second 0.
#[derive(Drop)]
enum Form {
    All(u32, u32),
    Any(u32, u32),
    Both(Box<Form>, Box<Form>),
    Either(Box<Form>, Box<Form>),
}

/// A guard that tells fast whether an object's flags meet it: where it is a run of `and`, or of `or`, over flags, by one
/// test of the mask. It has no more tests than the guard that it is made of has flags and truth values.
#[derive(Drop)]
pub struct Guard {
    form: Form,
}

impl Model for Guard {
    ghost use Rattle.std.specs.Coded.{codes};
    ghost use Rattle.bc_flags.specs.declared.guard.Form.{Form};
    ghost use Rattle.bc_flags.specs.contracts.guard.Form as tests;

    ghost Value = { Form };

    ghost coded = { Prim.hlevel (codes, tests.the_row.coded) };

    ghost view = { λ g. g.form };
}

/// A part of a run that is always met, or never.
fn constant(truth: bool, run: Run) -> Form
    ensures truth { (mask : ℕ) → is_met result mask ≡ truth }
    ensures one { test_count result ≡ 1 }
{
    match (run, truth) {
        (Run::All, true) => Form::All(0, 0),
        (Run::Any, false) => Form::Any(0, 0),
        // the same bit is to be 1 and to be 0
        (Run::All, false) => Form::All(1, 1),
        (Run::Any, true) => Form::Any(1, 1),
    }
}

/// A part of a run that asks for one flag, set or clear.
fn one_flag(flag: u32, wanted: bool, run: Run) -> Form
    ensures truth { (mask : ℕ) → mask < 2 ^ 32 → is_met result mask ≡ agree wanted (is_set mask flag) }
    ensures one { test_count result ≡ 1 }
{
    if flag >= FLAGS {
        return constant(!wanted, run);
    }
    let bit = 1 << flag;
    match (run, wanted) {
        (Run::All, true) => Form::All(bit, 0),
        (Run::All, false) => Form::All(0, bit),
        (Run::Any, true) => Form::Any(bit, 0),
        (Run::Any, false) => Form::Any(0, bit),
    }
}

/// Two tests that are both to be met, as one test where each asks for all of its flags.
fn both(alloc: Global, f: Form, g: Form) -> Result<Form, AllocError>
    ensures truth { IfOk result (λ h. (mask : ℕ) → is_met h mask ≡ (is_met f mask && is_met g mask)) }
    ensures few { IfOk result (λ h. test_count h ≤ test_count f + test_count g) }
{
    match (f, g) {
        (Form::All(set, clear), Form::All(set_too, clear_too)) => {
            Ok(Form::All(set | set_too, clear | clear_too))
        }
        (f, g) => Ok(Form::Both(Box::new(alloc, f)?, Box::new(alloc, g)?)),
    }
}

/// Two tests of which one is to be met, as one test where each asks for any of its flags.
fn either(alloc: Global, f: Form, g: Form) -> Result<Form, AllocError>
    ensures truth { IfOk result (λ h. (mask : ℕ) → is_met h mask ≡ (is_met f mask || is_met g mask)) }
    ensures few { IfOk result (λ h. test_count h ≤ test_count f + test_count g) }
{
    match (f, g) {
        (Form::Any(set, clear), Form::Any(set_too, clear_too)) => {
            Ok(Form::Any(set | set_too, clear | clear_too))
        }
        (f, g) => Ok(Form::Either(Box::new(alloc, f)?, Box::new(alloc, g)?)),
    }
}

/// A run of two tests.
fn join(alloc: Global, run: Run, f: Form, g: Form) -> Result<Form, AllocError>
    ensures truth { IfOk result (λ h. (mask : ℕ) → is_met h mask ≡ joined run (is_met f mask) (is_met g mask)) }
    ensures few { IfOk result (λ h. test_count h ≤ test_count f + test_count g) }
{
    match run {
        Run::All => both(alloc, f, g),
        Run::Any => either(alloc, f, g),
    }
}

/// The run that an `and` is where its truth is wanted, and an `or` where its opposite is.
fn run_of(wanted: bool) -> Run
    ensures { (x y : Bool) → joined result (agree wanted x) (agree wanted y) ≡ agree wanted (x && y) }
{
    if wanted { Run::All } else { Run::Any }
}

/// The test that a guard has the wanted truth, as a part of a run.
fn form_of(alloc: Global, guard: &FlagExpr, wanted: bool, run: Run) -> Result<Form, AllocError>
    ensures truth { IfOk result (λ f. (mask : ℕ) → mask < 2 ^ 32 → is_met f mask ≡ agree wanted (guard_truth (view_flag_expr guard.now) mask)) }
    ensures few { IfOk result (λ f. test_count f ≤ leaf_count guard.now) }
{
    match guard {
        FlagExpr::Flag(flag) => Ok(one_flag(*flag, wanted, run)),
        FlagExpr::Truth(truth) => Ok(constant(*truth == wanted, run)),
        FlagExpr::Not(g) => form_of(alloc, g, !wanted, run),
        FlagExpr::And(g, h) => {
            let inside = run_of(wanted);
            let x = form_of(alloc, g, wanted, inside)?;
            let y = form_of(alloc, h, wanted, inside)?;
            join(alloc, inside, x, y)
        }
        FlagExpr::Or(g, h) => {
            let inside = run_of(!wanted);
            let x = form_of(alloc, g, wanted, inside)?;
            let y = form_of(alloc, h, wanted, inside)?;
            join(alloc, inside, x, y)
        }
    }
}

/// Whether the tests are met. Each is asked at most once.
fn meets(form: &Form, mask: u32) -> bool
    ensures { result ≡ is_met form.now mask }
{
    match form {
        Form::All(set, clear) => mask & *set == *set && mask & *clear == 0,
        Form::Any(set, clear) => mask & *set != 0 || mask & *clear != *clear,
        Form::Both(f, g) => meets(f, mask) && meets(g, mask),
        Form::Either(f, g) => meets(f, mask) || meets(g, mask),
    }
}

/// The guard that holds at the masks at which this one is true. A flag of 32 or more is set in no mask.
pub fn guard_of(alloc: Global, guard: &FlagExpr) -> Result<Guard, AllocError>
    ensures truth { IfOk result (λ g. (mask : ℕ) → mask < 2 ^ 32 → is_met g mask ≡ guard_truth (view_flag_expr guard.now) mask) }
    ensures few { IfOk result (λ g. test_count g ≤ leaf_count guard.now) }
{
    Ok(Guard {
        form: form_of(alloc, guard, true, Run::All)?,
    })
}

impl Guard {
    /// Whether flags meet the guard. A call is one step, and takes no memory.
    pub fn holds<L: Ledger>(&self, mask: u32, steps: &mut Steps<L>) -> bool
        ensures result { result ≡ is_met self.now mask }
        ensures steps { steps.new ≡ steps.old + 1 }
    {
        steps.tick();
        meets(&self.form, mask)
    }
}
