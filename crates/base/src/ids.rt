// Numbers of triangles, vertices and half-edges: three types, so that none stands in for another; and the arithmetic of half-edge codes.
ghost use Rattle.std.specs.Prelude.{◌≡◌, ◌<◌, ◌≤◌, ◌⊎◌};
ghost use Rattle.base.specs.Ids.{boundary, leads, side, triangle_of, index, next, previous, mirror_side, mirror_corner};

#[derive(Clone, Copy, PartialEq, Eq, Debug)]
pub struct TriangleId(pub u16);

#[derive(Clone, Copy, PartialEq, Eq, Debug)]
pub struct VertexId(pub u16);

// Half-edge k of triangle t has the number 3t + k: it runs from corner k to the next corner, and names corner k too.
#[derive(Clone, Copy, Default, PartialEq, Eq, Debug)]
pub struct HalfEdgeId(pub u16);

// The number of triangles whose three codes fit.
const TRIANGLES: u16 = 21_845;

impl HalfEdgeId {
    // Written where there is no half-edge. As a code it would be the first of a triangle whose other two do not fit.
    pub const BOUNDARY: HalfEdgeId = HalfEdgeId(65_535);

    // Half-edge k of triangle t, or boundary where there is no such code.
    pub fn of(t: TriangleId, k: u8) -> HalfEdgeId
        ensures there { t.0 < 21845 → k < 3 → result ≡ side t k }
        ensures nowhere { (21845 ≤ t.0) ⊎ (3 ≤ k) → result ≡ boundary }
    {
        if t.0 < TRIANGLES && k < 3 {
            HalfEdgeId(3 * t.0 + k as u16)
        } else {
            HalfEdgeId::BOUNDARY
        }
    }

    pub fn triangle(self) -> TriangleId
        ensures { result ≡ triangle_of self }
    {
        TriangleId(self.0 / 3)
    }

    // What it says as a code across: no half-edge where it is boundary.
    pub fn leads(self) -> Option<HalfEdgeId>
        ensures { result ≡ leads self }
    {
        if self == HalfEdgeId::BOUNDARY {
            None
        } else {
            Some(self)
        }
    }

    // Which of the three half-edges of its triangle it is.
    pub fn index(self) -> u8
        ensures { result ≡ index self }
    {
        (self.0 % 3) as u8
    }

    // Where it stands in a list with one entry for each half-edge.
    pub fn place(self) -> usize
        ensures { result ≡ self.0 }
    {
        self.0 as usize
    }

    // The half-edge after it in its triangle; boundary stays boundary.
    pub fn next(self) -> HalfEdgeId
        ensures turned { self.0 < 65535 → result ≡ next self }
        ensures nowhere { 65535 ≤ self.0 → result ≡ boundary }
    {
        if self == HalfEdgeId::BOUNDARY {
            self
        } else if self.0 % 3 == 2 {
            HalfEdgeId(self.0 - 2)
        } else {
            HalfEdgeId(self.0 + 1)
        }
    }

    // The half-edge before it in its triangle; boundary stays boundary.
    pub fn previous(self) -> HalfEdgeId
        ensures turned { self.0 < 65535 → result ≡ previous self }
        ensures nowhere { 65535 ≤ self.0 → result ≡ boundary }
    {
        if self == HalfEdgeId::BOUNDARY {
            self
        } else if self.0 % 3 == 0 {
            HalfEdgeId(self.0 + 2)
        } else {
            HalfEdgeId(self.0 - 1)
        }
    }

    // The code of the same side where corners 1 and 2 of every triangle are exchanged; boundary stays boundary.
    pub fn mirrored_side(self) -> HalfEdgeId
        ensures turned { self.0 < 65535 → result ≡ mirror_side self }
        ensures nowhere { 65535 ≤ self.0 → result ≡ boundary }
    {
        match self.0 % 3 {
            0 if self != HalfEdgeId::BOUNDARY => HalfEdgeId(self.0 + 2),
            2 => HalfEdgeId(self.0 - 2),
            _ => self,
        }
    }

    // The code of the same corner there; boundary stays boundary.
    pub fn mirrored_corner(self) -> HalfEdgeId
        ensures { result ≡ mirror_corner self }
    {
        match self.0 % 3 {
            1 => HalfEdgeId(self.0 + 1),
            2 => HalfEdgeId(self.0 - 1),
            _ => self,
        }
    }
}
