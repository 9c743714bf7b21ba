//! The value of an expression.

ghost use Rattle.std.specs.Prelude.{◌≡◌, ◌+◌, ◌-◌, ◌^◌, neg_ℤ, not, min, slice_index_or};
ghost use Rattle.pst_base.specs.Heap.{kind_in};
ghost use Rattle.pst_program.specs.Value.{Gives, number_of, truth_of, same_value, operate, decides, binary, and_then, content, load, limited as limited_to, object_of, index_of, load_element};
ghost use Rattle.pst_eval.specs.Answers.{answer_of, evaluated, given_of, element_answer};

use pst_base::{Kind, Name, Op, ROOT, SlotNo, TrapKind};
use pst_heap::PlainHeap;
use pst_program::{Typed, Value};

/// The value of an expression, or the kind of its first trap from left to right. A number and a local, which most operands are, are
/// told without a call.
///
/// # Errors
/// The kind of that trap.
#[cycle(value)]
#[inline(always)]
pub fn value(e: &Typed, env: &[Value], heap: &PlainHeap) -> Result<Value, TrapKind>
    ensures { answer_of result ≡ evaluated e.now env.now heap.now }
{
    match e {
        Typed::Number(n) => Ok(Value::Number(*n)),
        Typed::Local(x) => Ok(local_at(env, *x)),
        Typed::Null(_)
        | Typed::Root(_)
        | Typed::Parens(_)
        | Typed::Load { .. }
        | Typed::LoadIndexed { .. }
        | Typed::Negate(_)
        | Typed::Not(_)
        | Typed::Binary { .. } => by_parts(e, env, heap),
    }
}

/// The same, by the values of the parts of the expression. Each form that has parts is a function of its own: what a function keeps of
/// values it sets at each call, whichever form it meets.
#[cycle(value)]
#[inline(never)]
fn by_parts(e: &Typed, env: &[Value], heap: &PlainHeap) -> Result<Value, TrapKind>
    ensures { answer_of result ≡ evaluated e.now env.now heap.now }
{
    match e {
        Typed::Number(n) => Ok(Value::Number(*n)),
        Typed::Null(_) => Ok(Value::Null),
        Typed::Local(x) => Ok(local_at(env, *x)),
        Typed::Root(slot) => Ok(content(heap, ROOT, *slot)),
        Typed::Parens(inner) => value(inner, env, heap),
        Typed::Load { object, field, .. } => loaded(object, *field, env, heap),
        Typed::LoadIndexed {
            object,
            field,
            elements,
            index,
            ..
        } => element(object, *field, *elements, index, env, heap),
        Typed::Negate(operand) => negated(operand, env, heap),
        Typed::Not(operand) => denied(operand, env, heap),
        Typed::Binary { op, left, right } => combined(*op, left, right, env, heap),
    }
}

/// `o.f`.
#[cycle(value)]
#[inline(never)]
fn loaded(object: &Typed, field: SlotNo, env: &[Value], heap: &PlainHeap) -> Result<Value, TrapKind>
    ensures { answer_of result ≡ and_then (evaluated object.now env.now heap.now) (load heap.now.shape heap.now.heap field.0) }
{
    let object = value(object, env, heap)?;
    load(heap, object, field)
}

/// `o.f(i)`: the slot of the array's first element, and how many there are.
#[cycle(value)]
#[inline(never)]
fn element(
    object: &Typed,
    field: SlotNo,
    elements: u8,
    index: &Typed,
    env: &[Value],
    heap: &PlainHeap,
) -> Result<Value, TrapKind>
    ensures { answer_of result ≡ element_answer object.now field.0 elements index.now env.now heap.now }
{
    let object = object_of(value(object, env, heap)?)?;
    let index = value(index, env, heap)?;
    load_element(heap, object, field, index_of(elements, number(index)))
}

/// `-e`.
#[cycle(value)]
#[inline(never)]
fn negated(operand: &Typed, env: &[Value], heap: &PlainHeap) -> Result<Value, TrapKind>
    ensures { answer_of result ≡ and_then (evaluated operand.now env.now heap.now) (λ v. limited_to (neg_ℤ (number_of v))) }
{
    limited(number(value(operand, env, heap)?).checked_neg())
}

/// `not e`.
#[cycle(value)]
#[inline(never)]
fn denied(operand: &Typed, env: &[Value], heap: &PlainHeap) -> Result<Value, TrapKind>
    ensures { answer_of result ≡ and_then (evaluated operand.now env.now heap.now) (λ v. Gives (Value.Truth (not (truth_of v)))) }
{
    let v = value(operand, env, heap)?;
    Ok(Value::Truth(!truth(v)))
}

/// Two operands with an operator between them: the right one is left out where the left one decides.
#[cycle(value)]
#[inline(never)]
fn combined(
    op: Op,
    left: &Typed,
    right: &Typed,
    env: &[Value],
    heap: &PlainHeap,
) -> Result<Value, TrapKind>
    ensures { answer_of result ≡ binary op (evaluated left.now env.now heap.now) (evaluated right.now env.now heap.now) }
{
    let v = value(left, env, heap)?;
    if decides(op, v) {
        return Ok(Value::Truth(truth(v)));
    }
    let w = value(right, env, heap)?;
    operate(op, v, w)
}

/// What a local holds; one that is not there is null.
fn local_at(env: &[Value], x: u16) -> Value
    ensures { result ≡ slice_index_or env.now x Value.Null }
{
    match env.get(x as usize) {
        Some(v) => *v,
        None => Value::Null,
    }
}

/// What a field holds.
fn content(heap: &PlainHeap, name: Name, slot: SlotNo) -> Value
    ensures { result ≡ content (kind_in heap.now.shape heap.now.heap name slot.0) heap.now.heap name slot.0 }
{
    match heap.kind_of(name, slot) {
        None => Value::Null,
        Some(Kind::Int) => Value::Number(heap.value(name, slot)),
        Some(Kind::Pointer(_)) => match heap.pointer(name, slot) {
            None => Value::Null,
            Some(target) => Value::Record(target),
        },
    }
}

/// A field of the record that a value is; null has none.
fn load(heap: &PlainHeap, object: Value, slot: SlotNo) -> Result<Value, TrapKind>
    ensures { answer_of result ≡ load heap.now.shape heap.now.heap slot.0 object }
{
    match object {
        Value::Record(name) => Ok(content(heap, name, slot)),
        _ => Err(TrapKind::Null),
    }
}

/// A record; null traps.
fn object_of(v: Value) -> Result<Value, TrapKind>
    ensures { answer_of result ≡ object_of v }
{
    match v {
        Value::Record(_) => Ok(v),
        _ => Err(TrapKind::Null),
    }
}

/// Which of so many elements a number is the index of.
pub fn index_of(elements: u8, n: i64) -> Option<u8>
    ensures { result ≡ index_of elements n }
{
    if n < 0 || n >= i64::from(elements) {
        return None;
    }
    Some(n as u8)
}

/// The slot of an element of an array: that of the first one, and its index further on. No record has the greatest slot, nor
/// one behind it, so that stands for each.
pub fn element_slot(slot: SlotNo, index: u8) -> SlotNo
    ensures { result.0 ≡ min (slot.0 + index) (2 ^ 16 - 1) }
{
    SlotNo(slot.0.saturating_add(u16::from(index)))
}

/// An element of an array of the record that a value is: the slot of the first one, and the index if it is one.
fn load_element(
    heap: &PlainHeap,
    object: Value,
    slot: SlotNo,
    index: Option<u8>,
) -> Result<Value, TrapKind>
    ensures { answer_of result ≡ load_element heap.now.shape heap.now.heap slot.0 index object }
{
    heap.known();
    match index {
        None => Err(TrapKind::Index),
        Some(index) => load(heap, object, element_slot(slot, index)),
    }
}

/// The number that a value is; a typed program reads no other value as one.
pub fn number(v: Value) -> i64
    ensures { result ≡ number_of v }
{
    match v {
        Value::Number(n) => n,
        _ => 0,
    }
}

/// The truth that a value is.
pub fn truth(v: Value) -> bool
    ensures { result ≡ truth_of v }
{
    match v {
        Value::Truth(b) => b,
        _ => false,
    }
}

/// Whether the left operand decides.
fn decides(op: Op, v: Value) -> bool
    ensures { result ≡ decides op v }
{
    match op {
        Op::And => !truth(v),
        Op::Or => truth(v),
        _ => false,
    }
}

/// An exact result, if it is a number of 64 bits.
fn limited(n: Option<i64>) -> Result<Value, TrapKind>
    ensures { result ≡ given_of n }
{
    match n {
        Some(n) => Ok(Value::Number(n)),
        None => Err(TrapKind::Overflow),
    }
}

/// An operator on two values.
fn operate(op: Op, v: Value, w: Value) -> Result<Value, TrapKind>
    ensures { answer_of result ≡ operate op v w }
{
    match op {
        Op::Add => limited(number(v).checked_add(number(w))),
        Op::Sub => limited(number(v).checked_sub(number(w))),
        Op::Mul => limited(number(v).checked_mul(number(w))),
        Op::Div => quotient(number(v), number(w)),
        Op::Rem => remainder(number(v), number(w)),
        Op::Equal => Ok(Value::Truth(same(v, w))),
        Op::NotEqual => Ok(Value::Truth(!same(v, w))),
        Op::Less => Ok(Value::Truth(number(v) < number(w))),
        Op::LessEqual => Ok(Value::Truth(number(v) <= number(w))),
        Op::Greater => Ok(Value::Truth(number(v) > number(w))),
        Op::GreaterEqual => Ok(Value::Truth(number(v) >= number(w))),
        Op::And => Ok(Value::Truth(truth(w))),
        Op::Or => Ok(Value::Truth(truth(w))),
    }
}

/// The quotient, rounded towards zero.
fn quotient(n: i64, divisor: i64) -> Result<Value, TrapKind>
    ensures { answer_of result ≡ operate Op.Div (Value.Number n) (Value.Number divisor) }
{
    if divisor == 0 {
        return Err(TrapKind::Divide);
    }
    limited(n.checked_div(divisor))
}

/// What the quotient, taken without a limit of range, leaves.
fn remainder(n: i64, divisor: i64) -> Result<Value, TrapKind>
    ensures { answer_of result ≡ operate Op.Rem (Value.Number n) (Value.Number divisor) }
{
    if divisor == 0 {
        return Err(TrapKind::Divide);
    }
    Ok(Value::Number(n.wrapping_rem(divisor)))
}

/// Whether two numbers or two pointers are the same.
fn same(v: Value, w: Value) -> bool
    ensures { result ≡ same_value v w }
{
    match (v, w) {
        (Value::Null, Value::Null) => true,
        (Value::Null, Value::Record(_)) => false,
        (Value::Record(_), Value::Null) => false,
        (Value::Record(a), Value::Record(b)) => a == b,
        _ => number(v) == number(w),
    }
}
