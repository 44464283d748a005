// The lines of a listing, each written at the end of a text.
ghost use Rattle.std.specs.Prelude.{◌≡◌, ◌∷◌, ◌++◌, ◌≤◌, ◌+◌, length};
ghost use Rattle.layout.specs.Records.{attribute_of, layout_of};
ghost use Rattle.listing.specs.Text.{pair_word, layout_line, pair_line, refusal_line};

use super::text::Text;
use datatype::datatype::size_of;
use layout::point_layout::{PointAttributeMember, PointLayout};
use pairs::pair::{Pair, pair_of};

// refused N
pub(crate) fn push_refusal(text: &mut Text, number: u8)
    requires { length text.old + 14 ≤ 1996 }
    ensures line { text.new ≡ text.old ++ refusal_line number }
    ensures size { length text.new ≤ length text.old + 12 }
{
    text.push_word(b"refused");
    text.push_next_number(u16::from(number));
    text.push_byte(b'\n');
}

// A word and the numbers of a layout.
pub(crate) fn push_layout(text: &mut Text, word: &[u8], layout: &PointLayout)
    requires { (layout.now.count ≤ 32) × (length word.now ≡ 6) × (length text.old + 22 ≤ 1996) }
    ensures line { text.new ≡ text.old ++ layout_line word.now (layout_of layout.now) }
    ensures size { length text.new ≤ length text.old + 22 }
{
    text.push_word(word);
    text.push_next_number(u16::from(layout.count));
    text.push_next_number(layout.size);
    text.push_next_number(layout.alignment);
    text.push_byte(b'\n');
}

// No sound plan has the third pair.
#[tactic(auto, unfolding(crate::specs::Text::pair_word, common::specs::Ascii::ascii))]
fn pair_word(pair: Pair) -> &'static [u8]
    ensures word { result.now ≡ pair_word pair }
    ensures size { length result.now ≤ 4 }
{
    match pair {
        Pair::Copy => b"copy",
        Pair::Cast => b"cast",
        Pair::Nothing => b"",
    }
}

// The line of a mapping from a source attribute onto a target attribute.
pub(crate) fn push_mapping(
    text: &mut Text,
    source: &PointAttributeMember,
    target: &PointAttributeMember,
)
    requires { (target.now.attribute_definition.name_len ≤ 31) × (length text.old + 61 ≤ 1996) }
    ensures line { text.new ≡ text.old ++ pair_line (attribute_of source.now) (attribute_of target.now) }
    ensures size { length text.new ≤ length text.old + 61 }
{
    let from = source.attribute_definition.datatype;
    let definition = &target.attribute_definition;
    let to = definition.datatype;
    text.push_number(source.offset);
    text.push_next_number(size_of(from));
    text.push_next_number(target.offset);
    text.push_next_number(size_of(to));
    text.push_next_word(pair_word(pair_of(from, to)));
    text.push_next_word(definition.name_bytes());
    text.push_byte(b'\n');
}
