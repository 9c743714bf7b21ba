//! What the names of a program stand for.

ghost use Rattle.std.specs.Prelude.{◌≡◌, ◌+◌, OnOk, Bool};
ghost use Rattle.std.specs.Option.{option_map};
ghost use Rattle.pst_base.specs.Shape.{root_type};
ghost use Rattle.pst_grammar.specs.View.{type_word_of, field_of};
ghost use Rattle.pst_typing.specs.Names.{bounded, array_length, is_length_of, length_in, elements_of, named, no_members, with_member, with_field, is_named, slot_in, slot_of, field_line, field_name, field_kind, field_elements, with_new_member, nothing_declared, is_free, number_of, kind_of, is_known, field_named, variable};
ghost use Rattle.pst_types_scope.specs.View.{kind_word, member_of, members_of, slot_seen, record_type_of, signature_of, scope_of, local_of, setting_of, variable_of};

use indexmap::IndexMap;
use pst_base::{Kind, LONGEST_ARRAY, ProcNo, SlotNo, TypeNo};
use pst_grammar::{Field, Local, TypeName};
use std::alloc::{AllocError, Global};

/// A type as it was written: `int`, or the name of a record type.
#[derive(Clone, Copy)]
pub enum Word<'t> {
    Int,
    Named(&'t [u8]),
}

impl<'t> Word<'t> {
    /// The type that stands in the tree.
    pub fn of_type(kind: &'t TypeName) -> Word<'t>
        ensures { kind_word result ≡ type_word_of kind.now }
    {
        match kind {
            TypeName::Int => Word::Int,
            TypeName::Named(name) => Word::Named(name.as_slice()),
        }
    }

    /// The type of a result, if there is one.
    pub fn of_result(kind: &'t Option<TypeName>) -> Option<Word<'t>>
        ensures { option_map kind_word result ≡ option_map type_word_of kind.now }
    {
        match kind {
            None => None,
            Some(kind) => Some(Word::of_type(kind)),
        }
    }

    /// The type of a field.
    pub fn of_field(field: &'t Field) -> Word<'t>
        ensures { kind_word result ≡ field_kind (field_of field.now) }
    {
        match field {
            Field::Val { .. } => Word::Int,
            Field::Ptr { target, .. } => Word::Named(target.as_slice()),
        }
    }
}

/// The name of a field.
pub(crate) fn name_of(field: &Field) -> &[u8]
    ensures { result.now ≡ field_name (field_of field.now) }
{
    match field {
        Field::Val { name, .. } => name.as_slice(),
        Field::Ptr { name, .. } => name.as_slice(),
    }
}

/// The line of a field.
pub(crate) fn line_of(field: &Field) -> u32
    ensures { result ≡ field_line (field_of field.now) }
{
    match field {
        Field::Val { line, .. } => *line,
        Field::Ptr { line, .. } => *line,
    }
}

/// The number of elements that is written at a field.
pub(crate) fn elements_at(field: &Field) -> Option<i64>
    ensures { result ≡ field_elements (field_of field.now) }
{
    match field {
        Field::Val { elements, .. } => *elements,
        Field::Ptr { elements, .. } => *elements,
    }
}

/// The number of elements of an array, if it is from 1 to 16.
fn array_length(elements: i64) -> Option<u8>
    ensures { result ≡ array_length elements }
{
    if (1..=i64::from(LONGEST_ARRAY)).contains(&elements) {
        Some(elements as u8)
    } else {
        None
    }
}

/// Whether a field can have the number of elements that is written, if one is.
pub(crate) fn is_length(elements: Option<i64>) -> bool
    ensures { result ≡ is_length_of elements }
{
    match elements {
        None => true,
        Some(elements) => array_length(elements).is_some(),
    }
}

/// The number of elements of a field that is an array. A number that no array has counts as 1 until the program is
/// refused for it.
pub(crate) fn length_in(elements: Option<i64>) -> Option<u8>
    ensures { result ≡ length_in elements }
{
    match elements {
        None => None,
        Some(elements) => Some(array_length(elements).unwrap_or(1)),
    }
}

/// How many elements a field has: one, where it is no array.
pub(crate) fn elements_of(elements: Option<u8>) -> u8
    ensures { result ≡ elements_of elements }
{
    elements.unwrap_or(1)
}

/// A field: its type, how many elements it has where it is an array, and how many elements of its sort stand before it.
#[derive(Clone, Copy)]
pub struct Member<'t> {
    pub rank: u16,
    pub kind: Word<'t>,
    pub elements: Option<u8>,
}

/// A field as a program reads and writes it: the slot of its first element, its type, and how many elements it has where
/// it is an array.
#[derive(Clone, Copy)]
pub struct Slot<'t> {
    pub slot: SlotNo,
    pub kind: Word<'t>,
    pub elements: Option<u8>,
}

/// The fields of a record type by name in the order of declaration, and how many elements hold a number and how many a
/// pointer.
#[derive(Drop)]
pub struct Members<'t> {
    pub values: u16,
    pub pointers: u16,
    pub list: IndexMap<&'t [u8], Member<'t>>,
}

/// The sum, or the last number of 16 bits where it is above that.
fn bounded_sum(a: u16, b: u16) -> u16
    ensures { result ≡ bounded (a + b) }
{
    if a > 65535 - b { 65535 } else { a + b }
}

#[tactic(auto, using(crate::proofs::Lookups::look_ups))]
impl<'t> Members<'t> {
    /// No fields.
    pub fn new(alloc: Global) -> Self
        ensures { members_of result ≡ no_members }
    {
        Members {
            values: 0,
            pointers: 0,
            list: IndexMap::new(alloc),
        }
    }

    /// Whether a field has the name.
    pub fn has(&self, name: &[u8]) -> bool
        ensures { result ≡ is_named name.now (members_of self.now).list }
    {
        self.list.contains_key(name)
    }

    /// Adds a field whose name is new.
    ///
    /// # Errors
    /// Where there was no memory.
    pub fn add(
        &mut self,
        name: &'t [u8],
        kind: Word<'t>,
        elements: Option<u8>,
    ) -> Result<(), AllocError>
        requires { is_named name.now (members_of self.old).list ≡ Bool.false }
        ensures { OnOk result (members_of self.new ≡ with_member (members_of self.old) name.entry.now (kind_word kind.entry) elements) }
    {
        let count = u16::from(elements_of(elements));
        match kind {
            Word::Int => {
                let rank = self.values;
                self.list.insert(
                    name,
                    Member {
                        rank,
                        kind,
                        elements,
                    },
                )?;
                self.values = bounded_sum(self.values, count);
            }
            Word::Named(_) => {
                let rank = self.pointers;
                self.list.insert(
                    name,
                    Member {
                        rank,
                        kind,
                        elements,
                    },
                )?;
                self.pointers = bounded_sum(self.pointers, count);
            }
        }
        Ok(())
    }

    /// Adds a field whose name is new, as it is written.
    ///
    /// # Errors
    /// Where there was no memory.
    pub fn add_field(&mut self, field: &'t Field) -> Result<(), AllocError>
        requires { is_named (field_name (field_of field.now)) (members_of self.old).list ≡ Bool.false }
        ensures { OnOk result (members_of self.new ≡ with_field (members_of self.old) (field_of field.entry.now)) }
    {
        let elements = length_in(elements_at(field));
        self.add(name_of(field), Word::of_field(field), elements)
    }

    /// Adds a field if its name is new.
    ///
    /// # Errors
    /// Where there was no memory.
    pub fn add_new(&mut self, field: &'t Field) -> Result<(), AllocError>
        ensures { OnOk result (members_of self.new ≡ with_new_member (members_of self.old) (field_of field.entry.now)) }
    {
        if self.has(name_of(field)) {
            return Ok(());
        }
        self.add_field(field)
    }

    /// The slot of the first element of one of these fields.
    pub fn slot(&self, member: &Member<'t>) -> SlotNo
        ensures { result.0 ≡ slot_of (members_of self.now) (member_of member.now) }
    {
        match member.kind {
            Word::Int => SlotNo(member.rank),
            Word::Named(_) => SlotNo(bounded_sum(self.values, member.rank)),
        }
    }

    /// The field with the name.
    pub fn find(&self, name: &[u8]) -> Option<Slot<'t>>
        ensures { option_map slot_seen result ≡ slot_in (members_of self.now) name.now }
    {
        match self.list.get(name) {
            None => None,
            Some(member) => Some(Slot {
                slot: self.slot(member),
                kind: member.kind,
                elements: member.elements,
            }),
        }
    }
}

/// A record type: its number and its fields.
#[derive(Drop)]
pub struct RecordType<'t> {
    pub number: TypeNo,
    pub members: Members<'t>,
}

/// A procedure as it is called.
#[derive(Clone, Copy)]
pub struct Signature<'t> {
    pub number: ProcNo,
    pub query: bool,
    pub parameters: &'t [Local],
    pub result: Option<Word<'t>>,
}

/// The declared names. The roots are the fields of the root record.
#[derive(Drop)]
pub struct Scope<'t> {
    pub types: IndexMap<&'t [u8], RecordType<'t>>,
    pub roots: Members<'t>,
    pub procedures: IndexMap<&'t [u8], Signature<'t>>,
}

#[tactic(auto, using(crate::proofs::Lookups::look_ups))]
impl<'t> Scope<'t> {
    /// Nothing declared.
    pub fn new(alloc: Global) -> Self
        ensures { scope_of result ≡ nothing_declared }
    {
        Scope {
            types: IndexMap::new(alloc),
            roots: Members::new(alloc),
            procedures: IndexMap::new(alloc),
        }
    }

    /// Whether no declaration has the name.
    pub fn is_free(&self, name: &[u8]) -> bool
        ensures { result ≡ is_free (scope_of self.now) name.now }
    {
        !self.types.contains_key(name)
            && !self.roots.has(name)
            && !self.procedures.contains_key(name)
    }

    /// The number of a record type; that of the root record for a name of none.
    pub fn number_of(&self, name: &[u8]) -> TypeNo
        ensures { result ≡ number_of (scope_of self.now) name.now }
    {
        match self.types.get(name) {
            None => TypeNo(0),
            Some(record) => record.number,
        }
    }

    /// What a variable or a field of a type holds.
    pub fn kind_of(&self, kind: Word<'t>) -> Kind
        ensures { result ≡ kind_of (scope_of self.now) (kind_word kind.entry) }
    {
        match kind {
            Word::Int => Kind::Int,
            Word::Named(name) => Kind::Pointer(self.number_of(name)),
        }
    }

    /// Whether a type is `int` or a record type.
    pub fn is_known(&self, kind: Word<'t>) -> bool
        ensures { result ≡ is_known (scope_of self.now) (kind_word kind.entry) }
    {
        match kind {
            Word::Int => true,
            Word::Named(name) => self.types.contains_key(name),
        }
    }

    /// The field of a record type.
    pub fn field(&self, type_name: &[u8], name: &[u8]) -> Option<Slot<'t>>
        ensures { option_map slot_seen result ≡ field_named (scope_of self.now) type_name.now name.now }
    {
        match self.types.get(type_name) {
            None => None,
            Some(record) => record.members.find(name),
        }
    }

    /// The record type with the name: its number.
    pub fn record(&self, name: &[u8]) -> Option<TypeNo>
        ensures { result ≡ option_map (λ r. r.number) (named name.now (scope_of self.now).types) }
    {
        match self.types.get(name) {
            None => None,
            Some(record) => Some(record.number),
        }
    }

    /// The procedure with the name.
    pub fn signature(&self, name: &[u8]) -> Option<Signature<'t>>
        ensures { option_map signature_of result ≡ named name.now (scope_of self.now).procedures }
    {
        match self.procedures.get(name) {
            None => None,
            Some(signature) => Some(*signature),
        }
    }
}

/// A parameter or a local: its number in its procedure, and its type.
#[derive(Clone, Copy)]
pub struct Variable<'t> {
    pub number: u16,
    pub kind: Word<'t>,
}

/// Where a statement stands: the declared names, whether it is in a query, what the procedure gives, and its parameters
/// and locals.
#[derive(Drop)]
pub struct Setting<'a, 't> {
    pub scope: &'a Scope<'t>,
    pub query: bool,
    pub result: Option<Word<'t>>,
    pub locals: IndexMap<&'t [u8], Variable<'t>>,
}

/// What can be assigned by its name.
#[derive(Clone, Copy)]
pub enum Target<'t> {
    Local(Variable<'t>),
    Root(Slot<'t>),
}

#[tactic(auto, using(crate::proofs::Lookups::look_ups))]
impl<'a, 't> Setting<'a, 't> {
    /// The parameter or local with the name.
    pub fn local(&self, name: &[u8]) -> Option<Variable<'t>>
        ensures { option_map local_of result ≡ named name.now (setting_of self.now).locals }
    {
        match self.locals.get(name) {
            None => None,
            Some(variable) => Some(*variable),
        }
    }

    /// The parameter, local or root with the name.
    pub fn variable(&self, name: &[u8]) -> Option<Target<'t>>
        ensures { option_map variable_of result ≡ variable (setting_of self.now) name.now }
    {
        match self.local(name) {
            Some(local) => Some(Target::Local(local)),
            None => match self.scope.roots.find(name) {
                Some(root) => Some(Target::Root(root)),
                None => None,
            },
        }
    }
}
