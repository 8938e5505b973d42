use super::*;

// A relaxed write passes any other, a strict one none.
#[test]
fn relaxed_passes_and_strict_waits(rt: HostRuntime) {
    let table = posted_table();
    assert!(rt; table.may_pass(RELAXED, RELAXED));
    assert!(rt; table.may_pass(RELAXED, STRICT));
    assert!(rt; !table.may_pass(STRICT, RELAXED));
    assert!(rt; !table.may_pass(STRICT, STRICT));
}

// Between different traffic classes no order holds, and within one class the kinds decide.
#[test]
fn strict_passes_another_class(rt: HostRuntime) {
    let table = posted_table();
    assert!(rt; table.passes(STRICT, 3, STRICT, 0));
    assert!(rt; table.passes(STRICT, 0, RELAXED, 7));
    assert!(rt; !table.passes(STRICT, 3, STRICT, 3));
    assert!(rt; !table.passes(STRICT, 0, RELAXED, 0));
    assert!(rt; table.passes(RELAXED, 3, STRICT, 3));
}

// A read pushes the posted writes before it, and completions keep their order.
#[test]
fn reads_wait_for_posted_writes(rt: HostRuntime) {
    let table = full_table();
    assert!(rt; !table.may_pass(READ_REQUEST, STRICT));
    assert!(rt; !table.may_pass(COMPLETION, RELAXED));
    assert!(rt; table.may_pass(STRICT, READ_REQUEST));
    assert!(rt; table.may_pass(READ_REQUEST, COMPLETION));
    assert!(rt; !table.may_pass(COMPLETION, COMPLETION));
    assert!(rt; table.may_pass(RELAXED, COMPLETION));
    assert!(rt; table.passes(COMPLETION, 1, COMPLETION, 2));
}
