// The names of parts, and of attributes.
use arrayvec::ArrayString;
use layout::point_layout::PointAttributeDefinition;

// The name of a part: what leads to the target's directory, the numbers of the process and of the try, and what stands about them.
pub(crate) type PartName = ArrayString<4160>;

// The name, which is the first bytes. Sheets give names of ASCII, and so text.
pub(crate) fn name_of(definition: &PointAttributeDefinition) -> &str {
    let name = definition.name.get(..definition.name_len as usize);
    name.and_then(|bytes| std::str::from_utf8(bytes).ok())
        .unwrap_or("")
}
