// Tests of the layers below the program, by examples.

#![tactic(auto)]

#[cfg(test)]
mod tests {
    use algebra::Sign;
    use base::ids::{HalfEdgeId, VertexId};
    use base::refusals::Refusal;
    use coordinates::Quadratic;
    use described::layers::{Layers, Pile, SecondMirror};
    use described::lists::{Described, OnMesh};
    use described::rows::{Kind, PointRow, TriangleRow};
    use gauge::Length;
    use gauge::rows::length_of_row;
    use gauge::supplied::{L1, Maximum, Octagon};
    use geometry::kinds::PointKind;
    use geometry::{IntegerPoint, IntegerRow, QuadraticPoint, QuadraticRow, Turn};
    use meshes::Mesh;
    use std::alloc::{AllocError, Global};
    use std::test::Fail;

    fn sign_is(p: i64, q: i64, sign: Sign) -> bool {
        match Quadratic::new(p, q) {
            Some(number) => number.sign() == sign,
            None => false,
        }
    }

    // A decimal for √2 gets the last one wrong.
    #[test]
    fn signs(rt: HostRuntime) {
        assert!(rt; sign_is(7, -5, Sign::Minus));
        assert!(rt; sign_is(17, -12, Sign::Plus));
        assert!(rt; sign_is(239, -169, Sign::Minus));
    }

    fn refused_at(row: QuadraticRow, place: usize) -> bool {
        match QuadraticPoint::make(row) {
            Ok(_) => false,
            Err(refusal) => refusal.number() == 2 && refusal.place() == place,
        }
    }

    #[test]
    fn ranges(rt: HostRuntime) {
        assert!(rt;
            QuadraticPoint::make(QuadraticRow {
                xp: 10000,
                xq: -10000,
                yp: 0,
                yq: 0,
            })
            .is_ok()
        );
        assert!(rt;
            refused_at(
                QuadraticRow {
                    xp: 0,
                    xq: 10001,
                    yp: 0,
                    yq: -10001,
                },
                0,
            )
        );
        assert!(rt;
            refused_at(
                QuadraticRow {
                    xp: 0,
                    xq: 0,
                    yp: -10001,
                    yq: 0,
                },
                1,
            )
        );
    }

    fn at(x: i32, y: i32) -> Result<IntegerPoint, Fail> {
        match IntegerPoint::make(IntegerRow { x, y }) {
            Ok(point) => Ok(point),
            Err(_) => Err(Fail::new("a point is refused")),
        }
    }

    // The row (6, 2), (20, 10), (22, 28).
    #[test]
    fn lengths(rt: HostRuntime) -> Result<(), Fail> {
        let a = at(6, 2)?;
        let b = at(20, 10)?;
        let c = at(22, 28)?;
        let row = [a, b, c];
        assert!(rt; IntegerPoint::turn(a, b, c) == Turn::Left);
        assert!(rt; length_of_row(&L1, &row).p == 42);
        assert!(rt; length_of_row(&Maximum, &row).p == 32);
        let octagon = length_of_row(&Octagon, &row);
        assert!(rt; octagon.p == 22 && octagon.q == 18);
        Ok(())
    }

    const EDGE: HalfEdgeId = HalfEdgeId::BOUNDARY;

    // A square cut into two triangles, whose one portal has the sides 2 and 3.
    fn square(heap: Global) -> Result<Described, AllocError> {
        let mut mesh = Described::new(heap, Kind::Integer);
        for (x, y) in [(0, 0), (4, 0), (4, 4), (0, 4)] {
            mesh.vertices.push(PointRow::Integer(IntegerRow { x, y }))?;
        }
        mesh.add_triangle(TriangleRow {
            corners: [VertexId(0), VertexId(1), VertexId(2)],
            across: [EDGE, EDGE, HalfEdgeId(3)],
        })?;
        mesh.add_triangle(TriangleRow {
            corners: [VertexId(0), VertexId(2), VertexId(3)],
            across: [HalfEdgeId(2), EDGE, EDGE],
        })?;
        Ok(mesh)
    }

    #[derive(Clone, Copy)]
    struct OneBarMore<'a> {
        layers: &'a Layers,
        side: HalfEdgeId,
    }

    impl<'a> OnMesh for OneBarMore<'a> {
        type Answer = Result<(), Refusal>;

        fn on<M: Mesh + Drop>(self, mesh: M) -> Result<(), Refusal> {
            self.layers.try_bar(mesh, self.side)
        }
    }

    #[test]
    fn described_lists(rt: HostRuntime) -> Result<(), Fail> {
        let mut mesh = square(rt.alloc())?;
        assert!(rt; mesh.vertices.kind() == Kind::Integer);
        assert!(rt; mesh.vertices.count() == 4 && mesh.triangles == 2);
        assert!(rt; mesh.check() == Ok(()));
        let copy = mesh.clone()?;
        assert!(rt; copy.vertices.count() == 4 && copy.check() == Ok(()));
        mesh.vertices
            .push(PointRow::Integer(IntegerRow { x: 10001, y: 0 }))?;
        assert!(rt;
            mesh.check()
                == Err(Refusal::VertexRange {
                    vertex: VertexId(4)
                })
        );
        Ok(())
    }

    #[test]
    fn layers_over_described_lists(rt: HostRuntime) -> Result<(), Fail> {
        let mesh = square(rt.alloc())?;
        let mut layers = Layers::none(rt.alloc());
        assert!(rt; layers.put_mirror() == Ok(()));
        assert!(rt; layers.put_mirror() == Err(SecondMirror));
        let side = HalfEdgeId(0);
        assert!(rt;
            mesh.on_mesh(OneBarMore {
                layers: &layers,
                side
            }) == Ok(())
        );
        layers.put_bar(side)?;
        assert!(rt; layers.pile == Pile::MirrorBars);
        assert!(rt;
            mesh.on_mesh(OneBarMore {
                layers: &layers,
                side
            }) == Err(Refusal::NoPortal { side })
        );
        Ok(())
    }

    #[test]
    fn texts(rt: HostRuntime) -> Result<(), Fail> {
        let number = Quadratic::new(3, -2).ok_or("a number is refused")?;
        let text = format!(in rt.alloc(); "{number}")?;
        assert!(rt; text.as_str() == "3 - 2√2");
        let root = Length { p: 0, q: 1 };
        let text = format!(in rt.alloc(); "{root}")?;
        assert!(rt; text.as_str() == "1√2");
        let turn = Turn::Straight;
        let text = format!(in rt.alloc(); "{turn}")?;
        assert!(rt; text.as_str() == "straight");
        Ok(())
    }
}
