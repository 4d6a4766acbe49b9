// Laws on bends.
ghost use Rattle.pr_wires.specs.BendLaws.{BytesStopNothing, OthersKeepBytes};

/// A byte that is changed, or given twice, changes nothing but bytes: no call fails for it, and no wire ends.
pub fn bends_of_bytes_stop_no_call()
    ensures { BytesStopNothing }
{}

/// No other bend changes a byte.
pub fn other_bends_change_no_byte()
    ensures { OthersKeepBytes }
{}
