// Pokes: items that set up a machine, valid or not.
//
// Byte 0 is 50 by custom (anything but e3), byte 1 the field, byte 2 the thread, byte 3 a place, bytes 4 to 7 an index and bytes 8 to
// 15 the value, both highest first. A place or thread that does not exist changes nothing. The fields:
//
//     0 thread count            7 NIA                              14 TEXASR
//     1 lent doublewords        8 PR                               15 read set's word at a place
//     2 memory at an index      9 TM                               16 write set's word at a place
//     3 live register          10 state: 0 is N, 1 T, 2 S          17 places of the log that are used
//     4 checkpoint's register  11 TDOOMED                          18 log's index at a place
//     5 live CR field          12 TFHAR                            19 log's value at a place
//     6 checkpoint's CR field  13 TFIAR                            20 a log of as many places as byte 3 says, from an index on, each with the value
//    21 SRR0                   22 SRR1                             23 log's marks at a place
//
// 18, 19 and 20 mark all bytes of the places that they set.
#![tactic(auto)]

pub mod text;

use machine::Machine;
use thread::{State, Thread};
use transaction::{Entry, Transaction};

// A machine, and how many doublewords of the memory beside it are lent.
#[derive(Clone, Copy)]
pub struct World {
    pub machine: Machine,
    pub lent: usize,
}

// The marks of all bytes of a place.
const ALL: u8 = 255;

// Any number above 1 is S: the vectors have it so.
fn state(v: u64) -> State {
    match v {
        0 => State::N,
        1 => State::T,
        _ => State::S,
    }
}

// A value's low byte, and its low half: two types, a line each. A trait for both would be longer.
fn low_byte(v: u64) -> u8 {
    (v % 0x100) as u8
}

fn low_half(v: u64) -> u32 {
    (v % 0x1_0000_0000) as u32
}

// A value at a place of a list, if there is such a place. As `buffer::put`, for any type and without a promise: so `get_mut` does.
fn put<T: Copy>(list: &mut [T], i: usize, v: T) {
    if let Some(place) = list.get_mut(i) {
        *place = v;
    }
}

// A log of n places, from an index on.
fn fill(x: &mut Transaction, n: usize, from: u64, value: u64) {
    x.count = n;
    for (k, e) in x.log.iter_mut().enumerate() {
        if k < n {
            *e = Entry {
                index: low_half(from.wrapping_add(k as u64)),
                marks: ALL,
                value,
            };
        }
    }
}

// One field of a place of the log, by its number in the list above.
fn entry(e: &mut Entry, field: u8, v: u64) {
    e.marks = ALL;
    match field {
        18 => e.index = low_half(v),
        19 => e.value = v,
        _ => e.marks = low_byte(v),
    }
}

// A thread's field, by its number in the list above, at place i where it has places.
fn thread(t: &mut Thread, field: u8, i: usize, index: u64, v: u64) {
    match field {
        3 => put(&mut t.live.gpr, i, v),
        4 => put(&mut t.checkpoint.gpr, i, v),
        5 if i == 0 => t.cr0 = low_byte(v),
        5 => put(&mut t.live.cr, i - 1, low_byte(v)),
        6 if i == 0 => {}
        6 => put(&mut t.checkpoint.cr, i - 1, low_byte(v)),
        7 => t.control.nia = v,
        8 => t.control.msr.pr = v == 1,
        9 => t.control.msr.tm = v == 1,
        10 => t.control.msr.state = state(v),
        11 => t.control.msr.doomed = v == 1,
        12 => t.control.failure.tfhar = v,
        13 => t.control.failure.tfiar = v,
        14 => t.control.failure.texasr = v,
        15 => put(&mut t.transaction.reads.words, i, v),
        16 => put(&mut t.transaction.writes.words, i, v),
        17 => t.transaction.count = v as usize,
        18 | 19 | 23 => {
            if let Some(e) = t.transaction.log.get_mut(i) {
                entry(e, field, v);
            }
        }
        20 => fill(&mut t.transaction, i, index, v),
        21 => t.control.saved.srr0 = v,
        22 => t.control.saved.srr1 = v,
        _ => {}
    }
}

pub fn poke(w: &mut World, mem: &mut [u64], b: &[u8; 16]) {
    let index = text::number(&b[4..8]);
    let v = text::number(&b[8..]);
    match b[1] {
        0 => w.machine.count = v as usize,
        1 => w.lent = v as usize,
        2 => put(mem, index as usize, v),
        field => {
            if let Some(t) = w.machine.threads.get_mut(b[2] as usize) {
                thread(t, field, b[3] as usize, index, v);
            }
        }
    }
}
