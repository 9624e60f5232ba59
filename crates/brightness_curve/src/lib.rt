// A brightness curve: 1 to 16 points of lux, strictly rising, and level, never falling. `judge` names the first bad point, `level_of` gives
// the level at a lux. Any curve and any lux are taken. This crate knows nothing of the kernel.
#![tactic(auto)]

ghost use Rattle.std.specs.Prelude.{◌≡◌, ◌&&◌, ◌*◌, ◌/◌, ◌≤◌, ◌<◌};
ghost use Rattle.brightness_curve.specs.Curves.{good, point_at, in_range, follows, judged_of};
ghost use Rattle.brightness_curve.specs.Curves.{Between, between, first_of, level_on, level_of};

const MAX_POINTS: u32 = 16;

const MAX_LUX: u32 = 65535;

const MAX_LEVEL: u32 = 255;

// The first `count` points count; what stands behind them is no part of the curve.
#[repr(C)]
#[derive(Clone, Copy)]
pub struct Curve {
    pub count: u32,
    pub lux: [u32; 16],
    pub level: [u32; 16],
}

// A curve's first bad point, counted from 1; 0 for a bad count.
#[derive(Clone, Copy, PartialEq, Eq)]
pub struct BadPoint(pub u32);

#[derive(Clone, Copy)]
struct Point {
    lux: u32,
    level: u32,
}

// The point behind the first i.
fn point_at(curve: &Curve, i: usize) -> Point
    requires { i < 16 }
    ensures { result ≡ point_at curve.now i }
{
    Point {
        lux: curve.lux[i],
        level: curve.level[i],
    }
}

// ---- a good curve

fn in_range(p: Point) -> bool
    ensures { result ≡ in_range p }
{
    p.lux <= MAX_LUX && p.level <= MAX_LEVEL
}

// Is q a good point behind p?
fn goes_on(p: Point, q: Point) -> bool
    ensures { result ≡ in_range q && follows p q }
{
    in_range(q) && p.lux < q.lux && p.level <= q.level
}

// Point by point, each whole before the next.
pub fn judge(curve: Curve) -> Result<(), BadPoint>
    ensures { result ≡ judged_of curve }
{
    let count = curve.count;
    if count < 1 || MAX_POINTS < count {
        return Err(BadPoint(0));
    }
    let mut last = point_at(&curve, 0);
    if !in_range(last) {
        return Err(BadPoint(1));
    }
    for k in 1..count {
        let next = point_at(&curve, k as usize);
        if !goes_on(last, next) {
            return Err(BadPoint(k + 1));
        }
        last = next;
    }
    Ok(())
}

// ---- the level

// A lux step times a level rise, divided by the lux rise and rounded down.
fn rounded_down(product: u32, rise: u32) -> u32
    requires { (product ≤ 65535 * 255) × (0 < rise) × (rise ≤ 65535) }
    ensures { result ≡ product / rise }
{
    product / rise
}

// From p towards q.
fn step_up(p: Point, q: Point, lux: u32) -> u32
    requires { Between p q lux }
    ensures { result ≡ between p q lux }
{
    p.level + rounded_down((lux - p.lux) * (q.level - p.level), q.lux - p.lux)
}

// The level at a lux of a good curve.
fn level_on(curve: Curve, lux: u32) -> u32
    requires { judged_of curve ≡ good }
    ensures { result ≡ level_on curve lux }
{
    let mut p = point_at(&curve, 0);
    if lux < p.lux {
        return p.level;
    }
    for k in 1..curve.count {
        let q = point_at(&curve, k as usize);
        if lux < q.lux {
            return step_up(p, q, lux);
        }
        p = q;
    }
    p.level
}

// The curve is judged first.
pub fn level_of(curve: Curve, lux: u32) -> Result<u32, BadPoint>
    ensures { result ≡ level_of curve lux }
{
    judge(curve)?;
    Ok(level_on(curve, lux))
}

// The level that a display starts at: the first point's.
pub fn first_level(curve: Curve) -> Result<u32, BadPoint>
    ensures { result ≡ first_of curve }
{
    judge(curve)?;
    Ok(curve.level[0])
}
