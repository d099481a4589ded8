// The bench figures of the choice that are not proved. All requests are at 45 north, 90 west.
ghost use Rattle.std.specs.Prelude.{◌≤◌};
ghost use Rattle.figures.specs.Counting.{Room, After};

use crate::output;
use crate::tally::Tally;
use ground::{Millidegrees, Millimetres, Nanodegrees, PerCent, Refusal, SignedMillimetres};
use requests::{Horizontal, Request};

const LISTS: u32 = 65536;

// Bit 1.
const CIRCLE_LIST: u16 = 2;

// Bits 0, 1, 3, 8, 9.
const WHOLE_LIST: u16 = 779;

// Each octet differs from the one that the circle's message has there.
const BUFFER: [u8; 7] = [161, 178, 195, 212, 229, 246, 7];

// An empty list: 9.
pub fn empty_list(rt: &HostRuntime, tally: Tally) -> Tally
    requires { Room 6 tally }
    ensures { After 6 tally result }
{
    let loose = empty_list_loose(rt, tally);
    empty_list_tight(rt, loose)
}

fn empty_list_loose(rt: &HostRuntime, tally: Tally) -> Tally
    requires { Room 3 tally }
    ensures { After 3 tally result }
{
    let height = Some(SignedMillimetres(100000));
    let circle = Horizontal::Circle(Millimetres(57274));
    let first = compare_empty(rt, tally, b"point", plain(None, Horizontal::NotAsked));
    let second = compare_empty(rt, first, b"altitude", plain(height, Horizontal::NotAsked));
    compare_empty(rt, second, b"circle", plain(None, circle))
}

fn empty_list_tight(rt: &HostRuntime, tally: Tally) -> Tally
    requires { Room 3 tally }
    ensures { After 3 tally result }
{
    let first = compare_empty(rt, tally, b"ellipse", ellipse(None));
    let second = compare_empty(rt, first, b"confidence", ellipse(Some(PerCent(50))));
    compare_empty(rt, second, b"ellipsoid", ellipsoid())
}

fn compare_empty(rt: &HostRuntime, tally: Tally, name: &[u8], request: Request) -> Tally
    requires { Room 1 tally }
    ensures { After 1 tally result }
{
    let group = output::print(rt, tally, b"empty-list ");
    let named = output::print(rt, group, name);
    output::compare(rt, named, answer(request, 0), 9)
}

// Altitude and circle with no altitude uncertainty: 9 under every list. The figure is the number of lists.
pub fn every_list(rt: &HostRuntime, tally: Tally) -> Tally
    requires { Room 3 tally }
    ensures { After 3 tally result }
{
    let circle = Horizontal::Circle(Millimetres(57274));
    let zero = Horizontal::Circle(Millimetres(0));
    let largest = Horizontal::Circle(Millimetres(1806627477));
    let height = plain(Some(SignedMillimetres(100000)), circle);
    let level = plain(Some(SignedMillimetres(0)), zero);
    let depth = confident(Some(SignedMillimetres(-1)), largest);
    let first = compare_lists(rt, tally, b"height", height);
    let second = compare_lists(rt, first, b"level", level);
    compare_lists(rt, second, b"depth", depth)
}

fn compare_lists(rt: &HostRuntime, tally: Tally, name: &[u8], request: Request) -> Tally
    requires { Room 1 tally }
    ensures { After 1 tally result }
{
    let group = output::print(rt, tally, b"every-list ");
    let named = output::print(rt, group, name);
    output::compare(
        rt,
        named,
        lists_without_message(request) as u64,
        LISTS as u64,
    )
}

// How many of all lists are answered 9.
fn lists_without_message(request: Request) -> u32 {
    let mut count: u32 = 0;
    for list in 0..LISTS {
        count += without_message(request, list as u16);
    }
    count
}

// 1 if the list is answered 9.
fn without_message(request: Request, list: u16) -> u32
    ensures { result ≤ 1 }
{
    u32::from(answer(request, list) == 9)
}

// A 7-octet buffer for a circle: 10, and the buffer is left as it was.
pub fn short_buffer(rt: &HostRuntime, tally: Tally) -> Tally
    requires { Room 4 tally }
    ensures { After 4 tally result }
{
    let alone = compare_short(rt, tally, b"short-buffer circle", CIRCLE_LIST);
    compare_short(rt, alone, b"short-buffer whole", WHOLE_LIST)
}

// The answer, and on the next line the buffer.
fn compare_short(rt: &HostRuntime, tally: Tally, name: &[u8], list: u16) -> Tally
    requires { Room 2 tally }
    ensures { After 2 tally result }
{
    let mut out = BUFFER;
    let circle = Horizontal::Circle(Millimetres(57274));
    let written = choice::choose(&mut out, plain(None, circle), list);
    let named = output::print(rt, tally, name);
    let answered = output::compare(rt, named, answer_number(written), 10);
    compare_buffer(rt, answered, name, &out)
}

// What the buffer is, and what it was.
fn compare_buffer(rt: &HostRuntime, tally: Tally, name: &[u8], out: &[u8; 7]) -> Tally
    requires { Room 1 tally }
    ensures { After 1 tally result }
{
    let named = output::print(rt, tally, name);
    let found = output::print_octets(rt, named, out);
    let expected = output::print_octets(rt, found, &BUFFER);
    output::end_line(rt, expected, check::same(out, &BUFFER))
}

// The answer's number where there is room for any message.
fn answer(request: Request, list: u16) -> u64 {
    let mut out = [0; 14];
    answer_number(choice::choose(&mut out, request, list))
}

fn answer_number(written: Result<usize, Refusal>) -> u64 {
    match written {
        Ok(_) => 0,
        Err(why) => u64::from(why),
    }
}

fn axes() -> Horizontal {
    Horizontal::Ellipse {
        semi_major: Millimetres(57274),
        semi_minor: Millimetres(51159),
        orientation: Millidegrees(30000),
    }
}

fn ellipse(confidence: Option<PerCent>) -> Request {
    asking(None, axes(), None, confidence)
}

// With all that can be asked.
fn ellipsoid() -> Request {
    let height = Some(SignedMillimetres(100000));
    let unsure = Some(Millimetres(1125));
    asking(height, axes(), unsure, Some(PerCent(50)))
}

// With no altitude uncertainty and no confidence.
fn plain(altitude: Option<SignedMillimetres>, horizontal: Horizontal) -> Request {
    asking(altitude, horizontal, None, None)
}

// With no altitude uncertainty, and a confidence.
fn confident(altitude: Option<SignedMillimetres>, horizontal: Horizontal) -> Request {
    asking(altitude, horizontal, None, Some(PerCent(50)))
}

fn asking(
    altitude: Option<SignedMillimetres>,
    horizontal: Horizontal,
    altitude_uncertainty: Option<Millimetres>,
    confidence: Option<PerCent>,
) -> Request {
    Request {
        latitude: Nanodegrees(45000000000),
        longitude: Nanodegrees(-90000000000),
        altitude,
        horizontal,
        altitude_uncertainty,
        confidence,
    }
}
