//! Numbers of labels that are found one after another.
ghost use Rattle.dnsv_denial.specs.unsigned_cuts.Findings.{IsGreater, IsLesser};

/// The lesser of the two numbers, or the one that there is.
pub fn lesser(one: Option<usize>, other: Option<usize>) -> Option<usize>
    ensures { IsLesser one other result }
{
    let Some(n) = one else {
        return other;
    };
    let Some(m) = other else {
        return one;
    };
    if n <= m {
        return Some(n);
    }
    Some(m)
}

/// The greater of the two numbers, or the one that there is.
pub fn greater(one: Option<usize>, other: Option<usize>) -> Option<usize>
    ensures { IsGreater one other result }
{
    let Some(n) = one else {
        return other;
    };
    let Some(m) = other else {
        return one;
    };
    if m <= n {
        return Some(n);
    }
    Some(m)
}
