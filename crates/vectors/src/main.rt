// Calls from standard input, one a line; an answer a line on standard output, as soon as its line is read. Nothing is kept
// between lines. What is answered is held to the file stdout, which a reference made that shares nothing with the code (reference/).

#![tactic(auto)]

mod books;
mod calls;
mod coarser;
mod images;
mod input;
mod lit_frames;
mod pages;
mod reading;
mod rings;
mod room;
mod row_books;
mod salvages;
mod text;
mod trends;
mod zone_books;

use room::Room;

fn main(rt: HostRuntime) {
    let mut buf = [0; input::LONGEST_LINE];
    let mut room = Room::default();
    input::run(&mut rt.stdin(), &mut rt.stdout(), &mut buf, &mut room);
}
