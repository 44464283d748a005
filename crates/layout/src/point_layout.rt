// Attributes with offsets, soundness, and the two ways in which a layout is made (point_layout.rs).
// A layout and its parts lie in memory as include/nakvisk.h declares them.
ghost use Rattle.std.specs.Prelude.{◌≡◌, ◌≤◌, ◌<◌, ◌+◌, ◌^◌};
ghost use Rattle.common.specs.Logic.{map, min};
ghost use Rattle.common.specs.Lists.{all, pairwise, same_bytes, first};
ghost use Rattle.common.specs.Refusal.{answer, answered, outcome_of};
ghost use Rattle.datatype.specs.Datatype.{size_of};
ghost use Rattle.layout.specs.Layout.{printable, good_name, definition_lines, end_of, disjoint, is_sound};
ghost use Rattle.layout.specs.Makers.{last_end, field_alignment, layout_alignment};
ghost use Rattle.layout.specs.Records.{definition_of, attribute_of, listed, layout_of, empty_point_layout, add_answer, given_answer};
ghost use Rattle.layout.specs.Steps.{meet, other_named, clear_of, Walk, Examination, PlacedBy, new_answer};

use common::{Refusal, least};
use datatype::arithmetic::{align_to, is_power_of_two};
use datatype::datatype::{Datatype, align_of, datatype_of, size_of};

// A name of name_len bytes, and a datatype.
#[repr(C)]
#[derive(Clone, Copy, Debug, PartialEq, Eq)]
pub struct PointAttributeDefinition {
    pub name: [u8; 31],
    pub name_len: u8,
    pub datatype: Datatype,
}

#[repr(C)]
#[derive(Clone, Copy, Debug, PartialEq, Eq)]
pub struct PointAttributeMember {
    pub attribute_definition: PointAttributeDefinition,
    pub offset: u16,
}

// The first count attributes are listed, the others are not looked at.
#[repr(C)]
#[derive(Clone, Copy)]
pub struct PointLayout {
    pub attributes: [PointAttributeMember; 32],
    pub count: u8,
    pub size: u16,
    pub alignment: u16,
}

#[derive(Clone, Copy, Debug, PartialEq, Eq)]
pub enum FieldAlignment {
    Default,
    Packed(u8),
}

// ---- one attribute

#[tactic(auto, unfolding(crate::specs::Layout::printable))]
fn is_printable(b: u8) -> bool
    ensures { result ≡ printable b }
{
    0x20 <= b && b <= 0x7e
}

pub(crate) fn good_name(name: &[u8]) -> bool
    ensures { result ≡ good_name name.now }
{
    name.len() <= 31 && name.iter().all(|b| is_printable(*b))
}

impl PointAttributeDefinition {
    // The bytes of its name, at most 31 of them.
    pub fn name_bytes(&self) -> &[u8]
        ensures { result.now ≡ first 0 self.now.name (min self.now.name_len 31) }
    {
        &self.name[..least(self.name_len as u64, 31) as usize]
    }
}

// Of the same bytes. The bytes past the length are not looked at, which a derive would compare.
pub(crate) fn same_name(a: PointAttributeDefinition, b: PointAttributeDefinition) -> bool
    ensures { result ≡ same_bytes (definition_of a).name (definition_of b).name }
{
    a.name_len == b.name_len && a.name_bytes() == b.name_bytes()
}

// 4 to 6, of one definition.
pub(crate) fn check_definition(definition: PointAttributeDefinition) -> Result<(), Refusal>
    ensures { answered result ≡ answer (definition_lines (definition_of definition)) }
{
    if 31 < definition.name_len || !good_name(definition.name_bytes()) {
        return Err(Refusal::BadName);
    }
    datatype_of(definition.datatype)?;
    Ok(())
}

fn end_of(m: PointAttributeMember) -> u32
    ensures { (result ≡ end_of (attribute_of m)) × (result < 2 ^ 17) }
{
    m.offset as u32 + size_of(m.attribute_definition.datatype) as u32
}

// A byte lies both from s to before e and from t to before f.
#[tactic(auto, unfolding(crate::specs::Steps::meet))]
fn ranges_meet(s: u32, e: u32, t: u32, f: u32) -> bool
    ensures { result ≡ meet s e t f }
{
    s.max(t) < e.min(f)
}

// ---- lists of attributes

// The first count members of an array.
pub(crate) fn first_of(
    members: &[PointAttributeMember; 32],
    count: usize,
) -> &[PointAttributeMember]
    requires { count ≤ 32 }
    ensures { map attribute_of result.now ≡ listed members.now count }
{
    &members[..count]
}

// They all have other names than the definition.
fn all_other_names(others: &[PointAttributeMember], definition: PointAttributeDefinition) -> bool
    ensures { result ≡ all (other_named (definition_of definition)) (map attribute_of others.now) }
{
    others
        .iter()
        .all(|m| !same_name(m.attribute_definition, definition))
}

// They share no byte with those from start to before end.
fn all_apart(others: &[PointAttributeMember], start: u32, end: u32) -> bool
    ensures { result ≡ all (clear_of start end) (map attribute_of others.now) }
{
    others
        .iter()
        .all(|m| !ranges_meet(m.offset as u32, end_of(*m), start, end))
}

// What one walk over a list finds: 4 to 6 attribute by attribute, distinct names, whether each attribute begins at or past the ends of all
// before it, so that they share no byte, and the greatest end.
#[derive(Clone, Copy)]
struct Walked {
    definitions: Result<(), Refusal>,
    names: bool,
    ordered: bool,
    end: u32,
}

fn walk(attributes: &[PointAttributeMember]) -> Walked
    ensures { Walk (map attribute_of attributes.now) result }
{
    let mut definitions: Result<(), Refusal> = Ok(());
    let mut names = true;
    let mut ordered = true;
    let mut end: u32 = 0;
    for i in 0..attributes.len() {
        let m = attributes[i];
        definitions = definitions.and(check_definition(m.attribute_definition));
        names &= all_other_names(&attributes[..i], m.attribute_definition);
        ordered &= end <= m.offset as u32;
        end = end.max(end_of(m));
    }
    Walked {
        definitions,
        names,
        ordered,
        end,
    }
}

// Each attribute beside each one before it.
fn all_disjoint(attributes: &[PointAttributeMember]) -> bool
    ensures { result ≡ pairwise disjoint (map attribute_of attributes.now) }
{
    let mut apart = true;
    for i in 0..attributes.len() {
        let m = attributes[i];
        apart &= all_apart(&attributes[..i], m.offset as u32, end_of(m));
    }
    apart
}

// What the checks of a list ask: 4 to 6 attribute by attribute, distinct names, no byte shared, the greatest end.
#[derive(Clone, Copy)]
struct Examined {
    definitions: Result<(), Refusal>,
    names: bool,
    disjoint: bool,
    end: u32,
}

// Two by two are compared only where the attributes are not in the order of their offsets.
fn examine(attributes: &[PointAttributeMember]) -> Examined
    ensures { Examination (map attribute_of attributes.now) result }
{
    let w = walk(attributes);
    Examined {
        definitions: w.definitions,
        names: w.names,
        disjoint: w.ordered || all_disjoint(attributes),
        end: w.end,
    }
}

fn last_end(attributes: &[PointAttributeMember]) -> u32
    ensures { (result ≡ last_end (map attribute_of attributes.now)) × (result < 2 ^ 17) }
{
    match attributes.last() {
        Some(m) => end_of(*m),
        None => 0,
    }
}

// ---- layouts

// What the offset is aligned to.
#[tactic(auto, unfolding(crate::specs::Makers::field_alignment))]
fn field_alignment(alignment: FieldAlignment, natural: u8) -> u8
    ensures { result ≡ field_alignment alignment natural }
{
    match alignment {
        FieldAlignment::Default => natural,
        FieldAlignment::Packed(p) => natural.min(p),
    }
}

// The layout's new alignment.
#[tactic(auto, unfolding(crate::specs::Makers::layout_alignment))]
fn layout_alignment(alignment: FieldAlignment, old: u16, natural: u8) -> u16
    ensures { result ≡ layout_alignment alignment old natural }
{
    match alignment {
        FieldAlignment::Default => old.max(natural as u16),
        FieldAlignment::Packed(p) => old.min(p as u16),
    }
}

// Where an added attribute lies, and the alignment and the size of the layout with it.
#[derive(Clone, Copy)]
struct Placement {
    start: u32,
    end: u32,
    alignment: u16,
    size: u64,
}

fn place(layout: &PointLayout, datatype: Datatype, alignment: FieldAlignment) -> Placement
    requires { layout.now.count ≤ 32 }
    ensures { PlacedBy (layout_of layout.now) datatype alignment result }
{
    let natural = align_of(datatype);
    let field = field_alignment(alignment, natural);
    let last = last_end(first_of(&layout.attributes, layout.count as usize));
    let start = align_to(last, field as u32) as u32;
    let end = start + size_of(datatype) as u32;
    let whole = layout_alignment(alignment, layout.alignment, natural);
    let size = align_to((layout.size as u32).max(end), whole as u32);
    Placement {
        start,
        end,
        alignment: whole,
        size,
    }
}

// 8 to 11, after 4 to 6. Every end is within the size, so 11 asks for the size alone.
#[tactic(auto, unfolding(crate::specs::Steps::new_answer, common::specs::Refusal::answer, common::specs::Refusal::or_else))]
fn check_new(
    definitions: Result<(), Refusal>,
    names: bool,
    disjoint: bool,
    alignment: u16,
    size: u64,
) -> Result<(), Refusal>
    ensures { answered result ≡ new_answer (answered definitions) names disjoint alignment size }
{
    definitions?;
    if !names {
        return Err(Refusal::NameTaken);
    }
    if !disjoint {
        return Err(Refusal::SharedByte);
    }
    if !is_power_of_two(alignment as u32) {
        return Err(Refusal::BadAlignment);
    }
    if 65535 < size {
        return Err(Refusal::TooLong);
    }
    Ok(())
}

impl Default for PointLayout {
    ghost is_default = { λ l. l ≡ empty_point_layout };

    // No attribute, size 0, alignment 1.
    #[tactic(auto, unfolding(crate::specs::Records::empty_point_layout))]
    fn default() -> Self {
        let definition = PointAttributeDefinition {
            name: [0u8; 31],
            name_len: 0,
            datatype: Datatype::plain(0),
        };
        PointLayout {
            attributes: [PointAttributeMember {
                attribute_definition: definition,
                offset: 0,
            }; 32],
            count: 0,
            size: 0,
            alignment: 1,
        }
    }
}

impl PointLayout {
    pub fn sound(self) -> bool
        ensures { result ≡ is_sound (layout_of self) }
    {
        let count = self.count as usize;
        if 32 < count || !is_power_of_two(self.alignment as u32) {
            return false;
        }
        let e = examine(first_of(&self.attributes, count));
        let definitions = e.definitions;
        definitions.is_ok()
            && e.names
            && e.disjoint
            && e.end <= self.size as u32
            && self.size % self.alignment == 0
    }

    // The layout with one attribute more, placed after those that are listed.
    pub fn add_attribute(
        self,
        definition: PointAttributeDefinition,
        alignment: FieldAlignment,
    ) -> Result<PointLayout, Refusal>
        ensures { outcome_of result ≡ add_answer self definition alignment }
    {
        if !self.sound() {
            return Err(Refusal::Unsound);
        }
        if self.count == 32 {
            return Err(Refusal::TooMany);
        }
        let count = self.count as usize;
        let listed = first_of(&self.attributes, count);
        let p = place(&self, definition.datatype, alignment);
        check_new(
            check_definition(definition),
            all_other_names(listed, definition),
            all_apart(listed, p.start, p.end),
            p.alignment,
            p.size,
        )?;
        let mut attributes = self.attributes;
        attributes[count] = PointAttributeMember {
            attribute_definition: definition,
            offset: p.start as u16,
        };
        Ok(PointLayout {
            attributes,
            count: self.count + 1,
            size: p.size as u16,
            alignment: p.alignment,
        })
    }

    // The first count members at the offsets that they give, in any order. Array and count stay apart: the layout keeps what the array has past
    // the count (`given_answer`).
    pub fn from_members_and_alignment(
        members: [PointAttributeMember; 32],
        count: usize,
        alignment: u16,
    ) -> Result<PointLayout, Refusal>
        ensures { outcome_of result ≡ given_answer members count alignment }
    {
        if 32 < count {
            return Err(Refusal::TooMany);
        }
        let e = examine(first_of(&members, count));
        let size = align_to(e.end, alignment as u32);
        check_new(e.definitions, e.names, e.disjoint, alignment, size)?;
        Ok(PointLayout {
            attributes: members,
            count: count as u8,
            size: size as u16,
            alignment,
        })
    }
}
