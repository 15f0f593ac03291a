//! Why a build has no result.
use hm_build::BuildFault;
use hm_service_places::ServiceFault;

/// Returns the fault of a build that wasn't refused.
pub(crate) fn build_fault(fault: BuildFault) -> ServiceFault {
    match fault {
        BuildFault::Refused(_) => ServiceFault::Mixed,
        BuildFault::Workers => ServiceFault::Workers,
        BuildFault::NoWorker => ServiceFault::NoWorker,
        BuildFault::Memory => ServiceFault::Memory,
        BuildFault::Exhausted(_) => ServiceFault::Memory,
        BuildFault::Mixed => ServiceFault::Mixed,
    }
}
