// What the data blocks hold: before the save, and after it.
ghost use Rattle.std.specs.Prelude.{◌≡◌, ◌≤◌, ◌<◌};
ghost use Rattle.journal.specs.Geometry.{trap};
ghost use Rattle.store.specs.Get.{get_place, bytes_at};
ghost use Rattle.powercut.specs.Contents.{of_save, old_age, age_of, photograph, is_either, is_spoilt, number, holds, has_other, letter_of, character};
ghost use Rattle.powercut.specs.Device.{state};

use crate::device::{BLOCKS, Device, SETTLED};
use crate::filling::{Age, byte};
use crate::finding::Finding;
use cells::BLOCK;
use cells::bytes::same;
use journal::FIRST_DATA;
use std::ops::Range;
use store::record::Record;

// The photograph's block, the last one.
const PHOTOGRAPH: u32 = BLOCKS - 1;

// How many data blocks a save has. The one that is cut has the first of them, one in the middle, the last before the photograph's.
const SAVED: u32 = 3;

const MIDDLE: u32 = 48;

const LAST: u32 = PHOTOGRAPH - 1;

fn put(device: &mut Device, address: u32, age: Age)
    requires { address < 65 }
{
    device.put(address, &[byte(address, age); BLOCK]);
}

// Data blocks put at an age, committed and saved.
fn save(device: &mut Device, blocks: Range<u32>, age: Age)
    requires { blocks.end ≤ 65 }
{
    for address in blocks {
        put(device, address, age);
    }
    device.commit();
    device.sync();
}

// The three blocks of the save that is cut, put and committed.
fn to_save(device: &mut Device) {
    put(device, FIRST_DATA, Age::Save);
    put(device, MIDDLE, Age::Save);
    put(device, LAST, Age::Save);
    device.commit();
}

// Makes a card with so many saves of three blocks each in its log, one behind the other, and in its group the one that is cut.
pub(crate) fn prepare(device: &mut Device, saves: u32)
    requires { saves ≤ 10 }
{
    device.format();
    save(device, FIRST_DATA..BLOCKS, Age::Home);
    device.apply();
    for i in 0..saves {
        let first = FIRST_DATA + SAVED * i;
        save(device, first..first + SAVED, Age::Log);
    }
    to_save(device);
}

// Such a card, as each experiment begins with it: the record and the settled bytes. Work memory none of them writes, and nothing waits.
#[derive(Drop)]
pub(crate) struct Scenario<'a> {
    pub rec: Record,
    pub settled: &'a [u8; SETTLED],
    pub saves: u32,
    ghost few: { saves ≤ 10 },
}

pub(crate) fn ready<'a>(rec: Record, settled: &'a [u8; SETTLED], saves: u32) -> Scenario<'a>
    requires { saves ≤ 10 }
    ensures { result.saves ≡ saves }
{
    Scenario {
        rec,
        settled,
        saves,
    }
}

// The photograph, written directly, so that it waits.
pub(crate) fn photographed(device: &mut Device) {
    device.direct(PHOTOGRAPH, &[byte(PHOTOGRAPH, Age::Save); BLOCK]);
}

// Whether the save has a block.
fn of_save(address: u32) -> bool
    ensures { result ≡ of_save address }
{
    address == FIRST_DATA || address == MIDDLE || address == LAST
}

// The age of a data block before the save.
fn old_age(address: u32, saves: u32) -> Age
    requires { saves ≤ 10 }
    ensures { number result ≡ old_age address saves }
{
    if address < FIRST_DATA + SAVED * saves {
        Age::Log
    } else {
        Age::Home
    }
}

// Before the save, or after it.
fn age(address: u32, saves: u32, after: bool) -> Age
    requires { saves ≤ 10 }
    ensures { number result ≡ age_of address saves after }
{
    if after && of_save(address) {
        return Age::Save;
    }
    old_age(address, saves)
}

// Whether a get gives the block of that age.
fn has(device: &Device, address: u32, age: Age) -> bool
    requires { address < 65 }
    ensures { result ≡ holds address (number age) (state device.now) }
{
    same(device.get(address), &[byte(address, age); BLOCK])
}

// Whether a byte of the photograph's block is as it was, or the photograph's.
fn is_either(found: u8) -> bool
    ensures { result ≡ is_either found }
{
    found == byte(PHOTOGRAPH, Age::Home) || found == byte(PHOTOGRAPH, Age::Save)
}

// Whether a byte is neither.
fn is_spoilt(block: &[u8]) -> bool
    ensures { result ≡ is_spoilt block.now }
{
    block.len() != BLOCK || block.iter().any(|&b| !is_either(b))
}

// Whether a get of the photograph's block gives such a byte.
fn has_spoilt(device: &Device) -> bool
    ensures { result ≡ is_spoilt (bytes_at (get_place trap photograph (state device.now)) (state device.now)) }
{
    is_spoilt(device.get(PHOTOGRAPH))
}

// Whether the photograph's block is spoilt, or another data block not as before the save, or not as after it.
fn has_other(device: &Device, saves: u32, after: bool) -> bool
    requires { saves ≤ 10 }
    ensures { result ≡ has_other saves after (state device.now) }
{
    has_spoilt(device)
        || (FIRST_DATA..PHOTOGRAPH).any(|address| !has(device, address, age(address, saves, after)))
}

// What is found: old, new, or something else.
pub(crate) fn letter(device: &Device, saves: u32) -> Finding
    requires { saves ≤ 10 }
    ensures { character result ≡ letter_of saves (state device.now) }
{
    if !has_other(device, saves, false) {
        return Finding::Old;
    }
    if !has_other(device, saves, true) {
        return Finding::New;
    }
    Finding::Other
}
