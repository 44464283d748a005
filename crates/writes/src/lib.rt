// Which byte of a buffer changes, and what it then holds. Definitions and laws only; nothing runs here.
#![tactic(auto)]

// Where one attribute of each of many points lies: point i's begins at base + i * stride.
#[derive(Clone, Copy)]
pub struct Strided {
    pub base: usize,
    pub stride: usize,
}
