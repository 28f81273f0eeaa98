// The calls, by their names and their arguments.
use crate::reading::Unanswered;
use crate::room::Room;
use crate::text::Answer;
use crate::{
    books, coarser, images, lit_frames, pages, rings, row_books, salvages, trends, zone_books,
};
use arrayvec::ArrayVec;

// The most words of a line: `show` and what it is handed.
const MOST_WORDS: usize = 10;

// Answers a line of words with one space between them: a call's name and what it is handed.
pub(crate) fn answer(room: &mut Room, line: &[u8]) -> Answer {
    let Ok(text) = str::from_utf8(line) else {
        return Err(Unanswered);
    };
    let mut words = ArrayVec::<&str, MOST_WORDS>::new();
    for word in text.split(' ') {
        words.try_push(word)?;
    }
    room.out.clear();
    of_ring_or_frames(room, &words)?;
    Ok(room.out.try_push('\n')?)
}

// The calls on a ring, and those on lit frames; other lines go on to `of_images`.
fn of_ring_or_frames(room: &mut Room, words: &[&str]) -> Answer {
    match words {
        ["ring_clear", width, slots, ring] => rings::clear(room, width, slots, ring),
        ["ring_read", width, slots, ring, slot] => rings::read(room, width, slots, ring, slot),
        ["ring_write", width, slots, ring, slot, value] => rings::write(
            room, width, slots, ring, slot, value,
        ),
        ["ring_sum", width, slots, ring, next, j] => rings::sum(room, width, slots, ring, next, j),
        ["in_byte", byte, k] => lit_frames::in_byte(room, byte, k),
        ["rank", row, length, i] => lit_frames::ask(room, row, length, i, lit::rank),
        ["select", row, length, k] => lit_frames::ask(room, row, length, k, lit::select),
        ["rank_coarse", row, length, step, i] => lit_frames::ask_by_step(
            room,
            row,
            length,
            step,
            i,
            lit::rank_coarse,
        ),
        ["select_coarse", row, length, step, k] => lit_frames::ask_by_step(
            room,
            row,
            length,
            step,
            k,
            lit::select_coarse,
        ),
        _ => of_images(room, words),
    }
}

// The calls on images; other lines go on to `of_book`.
fn of_images(room: &mut Room, words: &[&str]) -> Answer {
    match words {
        ["pgm", image] => images::pgm(room, image),
        ["score", bound, allowance, first, second] => images::score(
            room, bound, allowance, first, second,
        ),
        ["score_mask", bound, allowance, first, second, mask] => images::masked(
            room, bound, allowance, first, second, mask,
        ),
        ["show", arguments @ ..] => pages::show(room, arguments),
        _ => of_book(room, words),
    }
}

// The calls on a book alone, and on a book for each zone; other lines go on to `of_row_or_second_ring`.
fn of_book(room: &mut Room, words: &[&str]) -> Answer {
    match words {
        ["shape", bound, length, tolerance] => books::shape(room, bound, length, tolerance),
        ["open", bound, length, tolerance, ring] => books::open(
            room, bound, length, tolerance, ring,
        ),
        ["add", record, ring, item] => books::add(room, record, ring, item),
        ["run", record, ring, counts] => books::run(room, record, ring, counts),
        ["rest", record] => books::mark(room, record, book::rest),
        ["wake", record] => books::mark(room, record, book::wake),
        ["total", record, ring, window] => books::total(room, record, ring, window),
        ["totals", record, ring, window, more] => trends::totals(room, record, ring, window, more),
        ["trend", record, ring, window] => trends::trend(room, record, ring, window),
        ["far", record, ring, amount] => books::how_far_back(room, record, ring, amount),
        ["verdict", record, ring, window, amount] => books::verdict(
            room, record, ring, window, amount,
        ),
        ["zones_add", zones, rings, counts] => zone_books::add_all(room, zones, rings, counts),
        ["zone_add", zones, rings, zone, item] => zone_books::add_one(
            room, zones, rings, zone, item,
        ),
        _ => of_row_or_second_ring(room, words),
    }
}

// The calls on a book with a row of sums, or a second ring, or a row of slot numbers.
fn of_row_or_second_ring(room: &mut Room, words: &[&str]) -> Answer {
    match words {
        ["open_row", bound, length, tolerance, ring, row] => row_books::open(
            room, bound, length, tolerance, ring, row,
        ),
        ["add_row", record, ring, row, item] => row_books::add(room, record, ring, row, item),
        ["run_row", record, ring, row, counts] => row_books::run(room, record, ring, row, counts),
        ["total_row", record, ring, row, window] => row_books::total(
            room, record, ring, row, window,
        ),
        ["coarsen", record, ring, times, second] => coarser::coarsen(
            room, record, ring, times, second,
        ),
        ["coarsen_row", record, ring, times, second, row] => coarser::coarsen_row(
            room, record, ring, times, second, row,
        ),
        ["salvage", record, ring, numbers] => salvages::salvage(room, record, ring, numbers),
        ["salvage_row", record, ring, numbers, row] => salvages::salvage_row(
            room, record, ring, numbers, row,
        ),
        _ => Err(Unanswered),
    }
}
