// What a mapping may carry: nothing, a shift or a pose (document 02, point 7), and a point moved by it, each new coordinate by one formula,
// rounded at every step.
#![tactic(auto)]

ghost use Rattle.std.specs.Prelude.{◌≡◌};
ghost use Rattle.transformation.specs.Transformation.{coordinate, moved_point, posed, side_fits};

use datatype::datatype::Datatype;

#[derive(Clone, Copy)]
pub struct Vec3 {
    pub x: f64,
    pub y: f64,
    pub z: f64,
}

// Nine turning factors and three shifts. The new x has the factors xx, xy and xz of the old x, y and z, and the shift tx; so the new y and z.
#[derive(Clone, Copy)]
pub struct Pose {
    pub xx: f64,
    pub xy: f64,
    pub xz: f64,
    pub yx: f64,
    pub yy: f64,
    pub yz: f64,
    pub zx: f64,
    pub zy: f64,
    pub zz: f64,
    pub tx: f64,
    pub ty: f64,
    pub tz: f64,
}

#[derive(Clone, Copy)]
pub enum Transformation {
    Shift(f64, f64, f64),
    Pose(Pose),
}

// On which side of a mapping a transformation acts: on the source's value, which is then cast, or on the value that was cast.
#[derive(Clone, Copy)]
pub enum Side {
    Source,
    Target,
}

// What a mapping carries, if anything.
#[derive(Clone, Copy)]
pub struct Carried {
    pub side: Side,
    pub transformation: Transformation,
}

// The code of Vec3f64.
const VEC3F64: u8 = 14;

// Whether the chosen side is Vec3f64 where a shift or pose is given.
#[tactic(auto, unfolding(crate::specs::Transformation::side_fits))]
pub fn side_fits(carried: Option<Carried>, from: Datatype, to: Datatype) -> bool
    ensures { result ≡ side_fits carried «from» to }
{
    match carried {
        None => true,
        Some(carried) => match carried.side {
            Side::Source => from.code == VEC3F64,
            Side::Target => to.code == VEC3F64,
        },
    }
}

fn coordinate_of(a: f64, b: f64, c: f64, t: f64, p: Vec3) -> f64
    ensures { result ≡ coordinate a b c t p }
{
    ((a * p.x + b * p.y) + c * p.z) + t
}

fn turned(by: Pose, p: Vec3) -> Vec3
    ensures { result ≡ posed by p }
{
    let x = coordinate_of(by.xx, by.xy, by.xz, by.tx, p);
    let y = coordinate_of(by.yx, by.yy, by.yz, by.ty, p);
    let z = coordinate_of(by.zx, by.zy, by.zz, by.tz, p);
    Vec3 { x, y, z }
}

// With no transformation the point stays.
pub fn transform_point(t: Option<Transformation>, p: Vec3) -> Vec3
    ensures { result ≡ moved_point t p }
{
    match t {
        None => p,
        Some(Transformation::Shift(x, y, z)) => Vec3 {
            x: p.x + x,
            y: p.y + y,
            z: p.z + z,
        },
        Some(Transformation::Pose(by)) => turned(by, p),
    }
}
