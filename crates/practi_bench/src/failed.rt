// Why nothing is measured.

use pr_names::NameFault;
use pr_node::NodeFault;
use pr_sets::SetFault;
use pr_stamps::NoMemory;

/// A call was refused.
#[derive(Clone, Copy, Debug)]
pub struct Failed;

impl From<NodeFault> for Failed {
    fn from(_fault: NodeFault) -> Failed {
        Failed
    }
}

impl From<NoMemory> for Failed {
    fn from(_fault: NoMemory) -> Failed {
        Failed
    }
}

impl From<NameFault> for Failed {
    fn from(_fault: NameFault) -> Failed {
        Failed
    }
}

impl From<SetFault> for Failed {
    fn from(_fault: SetFault) -> Failed {
        Failed
    }
}
