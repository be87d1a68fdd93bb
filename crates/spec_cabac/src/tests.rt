use super::*;

/// SliceQpY, initValue, and 2 * pStateIdx + valMps, as a decoder of our own in another language computes them.
#[test]
fn contexts_begin_as_in_the_standard(rt: HostRuntime) {
    for (qp, init_value, context) in [
        (26, 184, 1),
        (26, 63, 16),
        (26, 141, 31),
        (26, 94, 0),
        (0, 154, 1),
        (51, 154, 1),
        (0, 255, 81),
        (51, 15, 124),
        (51, 0, 124),
    ] {
        assert_eq!(rt;
            initial_context(qp, init_value),
            context,
            "initValue {init_value} at {qp}"
        );
    }
}
