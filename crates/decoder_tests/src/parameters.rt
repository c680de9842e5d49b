//! Parameters against a table that was computed apart.

ghost use Rattle.std.specs.Prelude.{◌≤◌};

use gs_params::{ParamError, params};

/// What `params` gives, as numbers; none where it refuses.
fn numbers(k: u32, c: u32, r: u32) -> Option<[u32; 7]>
    requires least_k { 2 ≤ k }
    requires most_k { k ≤ 13 }
    requires points { r ≤ 1024 }
{
    let p = params(k, c, r).ok()?;
    Some([p.w, p.r, p.t, p.s, p.e, p.rows, p.cols])
}

#[test]
fn chooses_parameters(rt: HostRuntime) {
    assert_eq!(rt; numbers(5, 3, 39), Some([4, 39, 13, 12, 155, 3042, 3081]));
    assert_eq!(rt; numbers(3, 6, 78), Some([2, 78, 13, 12, 156, 6084, 6162]));
    assert_eq!(rt; numbers(3, 3, 19), Some([2, 19, 7, 3, 21, 114, 121]));
    assert_eq!(rt; numbers(5, 3, 200), Some([4, 200, 67, 1, 39, 200, 210]));
    assert_eq!(rt; numbers(13, 1, 13), Some([12, 13, 13, 12, 151, 1014, 1027]));
    assert_eq!(rt;
        numbers(13, 1, 1024),
        Some([12, 1024, 1024, 1, 151, 1024, 1027])
    );
    assert_eq!(rt; numbers(2, 8, 65), Some([1, 65, 9, 4, 36, 650, 666]));
    assert_eq!(rt;
        numbers(2, 8, 1024),
        Some([1, 1024, 128, 1, 45, 1024, 1035])
    );
}

#[test]
fn refuses_bounds_and_too_few_points(rt: HostRuntime) {
    assert_eq!(rt; params(2, 3, 9), Err(ParamError::TooFew(9)));
    assert_eq!(rt; params(3, 7, 100), Err(ParamError::BadBound));
}
