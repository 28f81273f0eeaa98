// What the steps of reading a header find.
ghost use Rattle.std.specs.Prelude.{◌≤◌};
ghost use Rattle.image.specs.Seen.{limit};
ghost use Rattle.image.specs.Kinds.{largest_side};

// What a step finds, and the bytes of the slice that are used with it.
#[derive(Drop)]
pub(crate) struct Took<T> {
    pub value: T,
    pub used: usize,
    ghost within: { used ≤ limit },
}

// The width and the height of an image or a mask.
#[derive(Clone, Copy)]
pub(crate) struct Sides {
    pub width: usize,
    pub height: usize,
    ghost width_in: { width ≤ largest_side },
    ghost height_in: { height ≤ largest_side },
}
