// The answers that are enums in Rattle, as numbers for programs in C and Rust (specs/ says which): what the exports of
// `okrozumba` tell.
#![tactic(auto)]

ghost use Rattle.std.specs.Prelude.{◌≡◌};
ghost use Rattle.kernel_batches.specs.Batches.{batch_number};
ghost use Rattle.run_month.specs.Monthly.{digit};
ghost use Rattle.export_numbers.specs.Numbers.{number_by, start_place, told_number, told_length};
ghost use Rattle.export_numbers.specs.Brightness.{judged_number, judged_point, leveled_number, leveled_value, DisplayTold};

use brightness_curve::BadPoint;
use brightness_light::{Light, News, Shown};
use kernel_batches::Unfit;
use run_compare_text::Short;
use run_month::Unreported;
use setup_sections::{FaultName, Refusal};

// ---- a fresh state, and many events

// An enum's number; and the place of a setup's fault, else 0.
#[repr(C)]
#[derive(Clone, Copy)]
pub struct Outcome {
    pub number: u32,
    pub place: usize,
}

pub fn start_outcome<F: FaultName>(started: Result<(), Refusal<F>>) -> Outcome
    ensures { (result.number ≡ number_by F.digit started) × (result.place ≡ start_place started) }
{
    match started {
        Ok(()) => Outcome {
            number: 0,
            place: 0,
        },
        Err(refusal) => Outcome {
            number: refusal.fault.digit(),
            place: refusal.place,
        },
    }
}

pub fn batch_number(batch: Result<(), Unfit>) -> u32
    ensures { result ≡ batch_number batch }
{
    match batch {
        Ok(()) => 0,
        Err(Unfit::Ragged) => 1,
        Err(Unfit::FewCodes) => 2,
        Err(Unfit::FewWords) => 3,
    }
}

// ---- a month, and a comparison

pub fn report_number(r: Result<(), Unreported>) -> u32
    ensures { result ≡ digit r }
{
    match r {
        Ok(()) => 0,
        Err(Unreported::Many) => 1,
        Err(Unreported::Size) => 2,
        Err(Unreported::Beyond) => 3,
    }
}

// 0: the text stands at the front of the output, so many bytes. 1: it takes so many, and the output is as it was.
#[repr(C)]
#[derive(Clone, Copy)]
pub struct Comparison {
    pub number: u32,
    pub length: usize,
}

pub fn in_numbers(told: Result<usize, Short>) -> Comparison
    ensures { (result.number ≡ told_number told) × (result.length ≡ told_length told) }
{
    match told {
        Ok(length) => Comparison { number: 0, length },
        Err(short) => Comparison {
            number: 1,
            length: short.needed,
        },
    }
}

// ---- brightness

// Whether a curve is good, 0, or bad, 1; and the first bad point.
#[repr(C)]
#[derive(Clone, Copy)]
pub struct Judgement {
    pub number: u32,
    pub point: u32,
}

pub fn judged_told(judged: Result<(), BadPoint>) -> Judgement
    ensures { (result.number ≡ judged_number judged) × (result.point ≡ judged_point judged) }
{
    match judged {
        Ok(()) => Judgement {
            number: 0,
            point: 0,
        },
        Err(BadPoint(point)) => Judgement { number: 1, point },
    }
}

// 0 and a level; or 1 and the curve's first bad point.
#[repr(C)]
#[derive(Clone, Copy)]
pub struct Level {
    pub number: u32,
    pub value: u32,
}

pub fn leveled_told(leveled: Result<u32, BadPoint>) -> Level
    ensures { (result.number ≡ leveled_number leveled) × (result.value ≡ leveled_value leveled) }
{
    match leveled {
        Ok(value) => Level { number: 0, value },
        Err(BadPoint(value)) => Level { number: 1, value },
    }
}

// A light, the number of what became of an arrival, and the curve's first bad point.
#[repr(C)]
#[derive(Clone, Copy)]
pub struct Display {
    pub light: Light,
    pub news: u32,
    pub point: u32,
}

pub fn shown_told(shown: Shown) -> Display
    ensures { DisplayTold shown result }
{
    let (news, point) = match shown.news {
        News::Set => (0, 0),
        News::Waits => (1, 0),
        News::Stays => (2, 0),
        News::NoSlot => (3, 0),
        News::BadCurve(point) => (4, point),
    };
    Display {
        light: shown.light,
        news,
        point,
    }
}
