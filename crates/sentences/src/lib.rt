// The sentence of each refusal.
#![tactic(auto)]

ghost use Rattle.std.specs.Prelude.{◌≡◌};
ghost use Rattle.sentences.specs.Sentences.{sentence};

// The sentence of a number; a number without one has the empty sentence.
pub fn sentence(number: u8) -> &'static [u8]
    ensures { result.now ≡ sentence number }
{
    match number {
        1 => b"A layout or plan handed in is not sound.",
        2 => b"A sheet ends inside a field.",
        3 => b"There are more than 32 attributes or lines.",
        4 => b"A name has over 31 bytes or a byte outside hex 20 to 7E.",
        5 => b"A datatype code is above 17.",
        6 => b"A ByteArray or a Custom has size 0, or a sheet gives a length below 256 in 16 bits.",
        7 => b"Fill bits are not zero, or a byte follows.",
        8 => b"A name already stands in the list.",
        9 => b"Two attributes share a byte.",
        10 => b"The layout's alignment is 0 or no power of two.",
        11 => b"An end or the size passes 65,535.",
        12 => b"`for_layouts` finds no source of that name.",
        13 => b"A place is not in its list.",
        14 => b"The pair has neither copy nor cast.",
        15 => b"The source buffer is not count times point size long.",
        16 => b"The target buffer is not count times point size long.",
        17 => b"The ranges' lengths differ.",
        18 =>
            b"The source range's end passes the count, or the part of a view's point passes the view's lent bytes.",
        19 => b"The target range's end passes the count.",
        20 => b"A lent single point, source or target, ends before the end of a paired attribute.",
        21 => b"A range starts after its end.",
        22 => b"A column buffer is not count times the sum of attribute sizes long.",
        _ => b"",
    }
}
