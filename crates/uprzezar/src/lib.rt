// The public calls of ring, book, sums, trend, coarse, salvage, zones, image, score, lit and page for programs in C: the archive of
// `rt staticlib uprzezar`, the header include/uprzezar.h. Not among them are book::two_totals, image::mask_header and image::pair_value, and
// page::raster, since a part of lent bytes cannot cross: where that raster lies stands in what uprzezar_show gives. Each function hands its
// arguments on and tells the result in numbers, as the clause of the call behind it has them: a refusal by its number, a verdict and a picture too,
// and a raster by its place.

#![tactic(auto)]

mod crossing;
mod of_book;
mod of_coarse;
mod of_images;
mod of_lit;
mod of_page;
mod of_ring;
mod of_salvage;
mod of_sums;
mod of_trend;
mod of_zones;

// What the page is told, as numbers: the refusal, 0 for none; the verdict, 1 live, 2 frozen, 3 undecided, 4 resting; the window; the figure.
// At a refusal all but the refusal are 0.
#[repr(C)]
#[derive(Clone, Copy, Default)]
pub struct Ruled {
    pub refusal: u8,
    pub verdict: u8,
    pub window: u64,
    pub figure: u64,
}

// Where a raster lies in the lent bytes. At a refusal the part is empty.
#[repr(C)]
#[derive(Clone, Copy, Default)]
pub struct Raster {
    pub refusal: u8,
    pub offset: usize,
    pub length: usize,
}

// Which picture the page shows, as numbers: the refusal, 0 for none; the picture, 1 the newest, 2 the older one; where its raster lies in its own
// bytes; its age in ticks. At a refusal all but the refusal are 0.
#[repr(C)]
#[derive(Clone, Copy, Default)]
pub struct Shown {
    pub refusal: u8,
    pub picture: u8,
    pub offset: usize,
    pub length: usize,
    pub age: u32,
}
