//! What registers hold.

ghost use Rattle.std.specs.Prelude.{◌≡◌};
ghost use Rattle.pst_base.specs.declared.names.Name.{Name};
ghost use Rattle.pst_program.specs.Value.{number_of, same_value};
ghost use Rattle.pst_machine_steps.specs.View.{value_of};
ghost use Rattle.pst_machine_steps.specs.Live.{IsLiveSomewhere, IsNumber};

use pst_versions::HeapAt;

/// What a register holds. A pointer to a record is a reference of the heap.
#[derive(Clone, Copy)]
pub enum Register<R> {
    Number(i64),
    Null,
    Reference(R),
}

/// The number that is held.
#[inline(always)]
pub fn the_number<R: Copy>(v: Register<R>) -> i64
    requires { IsNumber v }
    ensures { (name : R → Name) → result ≡ number_of (value_of name v) }
{
    match v {
        Register::Number(n) => n,
        Register::Null | Register::Reference(_) => {
            // A proof rules this out. The compiler makes no code for an element of an empty list, and so none for the question that
            // would lead here.
            let none: &[i64] = &[];
            none[0]
        }
    }
}

/// The number that a register holds; 0 where it holds none.
#[inline(always)]
fn number<R: Copy>(v: Register<R>) -> i64
    ensures { (name : R → Name) → result ≡ number_of (value_of name v) }
{
    match v {
        Register::Number(n) => n,
        _ => 0,
    }
}

/// Whether two registers hold the same number, the same record, or null both.
pub fn same<H: HeapAt>(heap: &H, v: Register<H::Ref>, w: Register<H::Ref>) -> bool
    requires v { IsLiveSomewhere (H.state heap.now) v }
    requires w { IsLiveSomewhere (H.state heap.now) w }
    ensures { result ≡ same_value (value_of (H.state heap.now).name v) (value_of (H.state heap.now).name w) }
{
    match (v, w) {
        (Register::Null, Register::Null) => true,
        (Register::Null, Register::Reference(_)) => false,
        (Register::Reference(_), Register::Null) => false,
        (Register::Reference(r), Register::Reference(q)) => heap.same(r, q),
        _ => number(v) == number(w),
    }
}
