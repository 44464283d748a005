// Lookups by name, or by name and datatype, and the comparison of two layouts (point_layout.rs).
ghost use Rattle.std.specs.Prelude.{◌≡◌, ◌≤◌};
ghost use Rattle.common.specs.Logic.{length, map};
ghost use Rattle.common.specs.Lists.{all, place_from};
ghost use Rattle.common.specs.Refusal.{outcome_of};
ghost use Rattle.layout.specs.Lookup.{named, defined, is_among, get_attribute_by_name, index_of, offset_of, compare_without_offsets};
ghost use Rattle.layout.specs.Records.{definition_of, attribute_of, layout_of};

use super::point_layout::{
    PointAttributeDefinition, PointAttributeMember, PointLayout, check_definition, first_of,
    good_name, same_name,
};
use common::Refusal;
use datatype::datatype::same_datatype;

fn has_name(m: PointAttributeMember, name: &[u8]) -> bool
    requires { length name.now ≤ 31 }
    ensures { result ≡ named name.now (attribute_of m) }
{
    let d = m.attribute_definition;
    d.name_len <= 31 && d.name_bytes() == name
}

fn has_definition(m: PointAttributeMember, definition: PointAttributeDefinition) -> bool
    ensures { result ≡ defined (definition_of definition) (attribute_of m) }
{
    let d = m.attribute_definition;
    same_name(d, definition) && same_datatype(d.datatype, definition.datatype)
}

// The first attribute of that name.
fn place_of_name(attributes: &[PointAttributeMember], name: &[u8]) -> Option<usize>
    requires { length name.now ≤ 31 }
    ensures { result ≡ place_from 0 (named name.now) (map attribute_of attributes.now) }
{
    attributes.iter().position(|m| has_name(*m, name))
}

// The first attribute of the definition's name and datatype.
fn place_of(
    attributes: &[PointAttributeMember],
    definition: PointAttributeDefinition,
) -> Option<usize>
    ensures { result ≡ place_from 0 (defined (definition_of definition)) (map attribute_of attributes.now) }
{
    attributes
        .iter()
        .position(|m| has_definition(*m, definition))
}

// Each attribute of the one list is among the others, by name and datatype.
fn all_among(a: &[PointAttributeMember], b: &[PointAttributeMember]) -> bool
    ensures { result ≡ all (is_among (map attribute_of b.now)) (map attribute_of a.now) }
{
    a.iter()
        .all(|m| place_of(b, m.attribute_definition).is_some())
}

impl PointLayout {
    // The place of the attribute of that name.
    pub fn get_attribute_by_name(self, name: &[u8]) -> Result<Option<usize>, Refusal>
        ensures { outcome_of result ≡ get_attribute_by_name (layout_of self) name.now }
    {
        if !self.sound() {
            return Err(Refusal::Unsound);
        }
        if !good_name(name) {
            return Err(Refusal::BadName);
        }
        Ok(place_of_name(first_of(&self.attributes, self.count as usize), name))
    }

    // The place of the attribute of that name and datatype.
    pub fn index_of(self, definition: PointAttributeDefinition) -> Result<Option<usize>, Refusal>
        ensures { outcome_of result ≡ index_of (layout_of self) (definition_of definition) }
    {
        if !self.sound() {
            return Err(Refusal::Unsound);
        }
        check_definition(definition)?;
        Ok(place_of(first_of(&self.attributes, self.count as usize), definition))
    }

    // The offset of the attribute of that name and datatype.
    pub fn offset_of(self, definition: PointAttributeDefinition) -> Result<Option<u16>, Refusal>
        ensures { outcome_of result ≡ offset_of (layout_of self) (definition_of definition) }
    {
        match self.index_of(definition)? {
            Some(i) => Ok(Some(self.attributes[i].offset)),
            None => Ok(None),
        }
    }

    // The same attributes by name and datatype, in any order and at any offset.
    pub fn compare_without_offsets(self, other: PointLayout) -> Result<bool, Refusal>
        ensures { outcome_of result ≡ compare_without_offsets (layout_of self) (layout_of other) }
    {
        if !self.sound() {
            return Err(Refusal::Unsound);
        }
        if !other.sound() {
            return Err(Refusal::Unsound);
        }
        if self.count != other.count {
            return Ok(false);
        }
        let count = self.count as usize;
        Ok(all_among(
            first_of(&self.attributes, count),
            first_of(&other.attributes, count),
        ))
    }
}
