// The versions that the on-board speaks.
ghost use Rattle.std.specs.Prelude.{◌≡◌, length};

// The lowest and the highest major, and a minor for each: `minors[i]` is that of `lowest + i`. Four places are all there can be,
// and memory is fixed.
#[derive(Clone, Copy)]
pub struct Versions {
    pub lowest: u8,
    pub highest: u8,
    pub minors: [u8; 4],
    ghost full: { length minors ≡ 4 },
}
