//! Tests of the hull: examples, refusals, and lists with places to spare.
#![tactic(auto)]

#[cfg(test)]
mod tests {
    use hull::corner::Corner;
    use hull::table::Hull;
    use refusal::Refusal;
    use std::process::Abort;

    fn at(x: i32, y: i32) -> Corner {
        Corner { x, y }
    }

    fn square() -> [Corner; 4] {
        [at(0, 0), at(4, 0), at(4, 4), at(0, 4)]
    }

    fn hull_of(rt: &impl Abort, corners: &[Corner]) -> Hull {
        let mut hull = Hull::new();
        assert_eq!(rt; hull.set(corners), Ok(corners.len()));
        hull
    }

    fn refused(rt: &impl Abort, corners: &[Corner], why: Refusal) {
        let mut hull = Hull::new();
        assert_eq!(rt; hull.set(corners), Err(why));
        assert_eq!(rt; hull.count(), 3);
        assert_eq!(rt; hull.corner(1), Ok(at(1, 0)));
    }

    #[test]
    fn a_new_hull_is_a_triangle(rt: HostRuntime) {
        let hull = Hull::new();
        assert_eq!(rt; hull.count(), 3);
        assert_eq!(rt; hull.corner(0), Ok(at(0, 0)));
        assert_eq!(rt; hull.corner(1), Ok(at(1, 0)));
        assert_eq!(rt; hull.corner(2), Ok(at(0, 1)));
        assert_eq!(rt; hull.corner(3), Err(Refusal::NoSuchPlace));
    }

    #[test]
    fn the_square_with_places_to_spare(rt: HostRuntime) {
        let hull = hull_of(&rt, &square());
        let mut answers = [99; 6];
        let mut work = [99; 18];
        assert!(rt;
            hull.farthest(&mut answers, &mut work)
                .is_ok_and(|told| told <= 76)
        );
        assert_eq!(rt; answers, [2, 3, 0, 1, 99, 99]);
        assert_eq!(rt; [work[16], work[17]], [99, 99]);
        assert_eq!(rt; hull.greatest_swing(&answers), Ok(32));
    }

    #[test]
    fn a_tie_goes_to_the_first_met(rt: HostRuntime) {
        let hull = hull_of(&rt, &[at(0, 0), at(4, 3), at(3, 4)]);
        let mut answers = [99; 3];
        let mut work = [99; 12];
        assert!(rt; hull.farthest(&mut answers, &mut work).is_ok());
        assert_eq!(rt; answers, [1, 0, 0]);
        assert_eq!(rt; hull.swing(1, 2), Ok(2));
        assert_eq!(rt; hull.swing(1, 3), Err(Refusal::NoSuchPlace));
    }

    #[test]
    fn short_lists_are_left_alone(rt: HostRuntime) {
        let hull = hull_of(&rt, &square());
        let mut answers = [99; 4];
        let mut work = [99; 15];
        assert_eq!(rt;
            hull.farthest(&mut answers, &mut work),
            Err(Refusal::ListTooShort)
        );
        assert_eq!(rt; answers, [99; 4]);
        assert_eq!(rt; work, [99; 15]);
        let mut few = [99; 3];
        let mut enough = [99; 16];
        assert_eq!(rt;
            hull.farthest(&mut few, &mut enough),
            Err(Refusal::ListTooShort)
        );
        assert_eq!(rt; few, [99; 3]);
        assert_eq!(rt; enough, [99; 16]);
    }

    #[test]
    fn the_number_of_corners_comes_first(rt: HostRuntime) {
        refused(&rt, &[at(0, 0), at(40_000, 0)], Refusal::WrongCorners);
        refused(&rt, &[at(40_000, 0); 513], Refusal::WrongCorners);
    }

    #[test]
    fn coordinates_reach_30_000(rt: HostRuntime) {
        let hull = hull_of(
            &rt,
            &[
                at(-30_000, -30_000),
                at(30_000, -30_000),
                at(30_000, 30_000),
                at(-30_000, 30_000),
            ],
        );
        assert_eq!(rt; hull.swing(0, 2), Ok(7_200_000_000));
        refused(
            &rt,
            &[at(0, 0), at(30_001, 0), at(0, 1)],
            Refusal::CornerTooFar,
        );
        refused(
            &rt,
            &[at(0, 0), at(1, -30_001), at(0, 1)],
            Refusal::CornerTooFar,
        );
    }

    #[test]
    fn only_strictly_convex_corners_are_taken(rt: HostRuntime) {
        refused(&rt, &[at(0, 0), at(1, 0), at(2, 0)], Refusal::NotConvex);
        refused(
            &rt,
            &[at(0, 0), at(0, 4), at(4, 4), at(4, 0)],
            Refusal::NotConvex,
        );
        refused(
            &rt,
            &[at(0, 0), at(4, 0), at(4, 0), at(0, 4)],
            Refusal::NotConvex,
        );
        refused(
            &rt,
            &[at(10, 0), at(-8, 6), at(3, -10), at(3, 10), at(-8, -6)],
            Refusal::NotConvex,
        );
    }
}
