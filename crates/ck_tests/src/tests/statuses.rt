//! The statuses that a table keeps.
use cm_attempt::Status;
use cm_envelope::Status as LineStatus;
use cm_stream::kept_status;

#[test]
fn each_status_is_kept(rt: HostRuntime) {
    assert_eq!(rt; kept_status(LineStatus::Unknown), Status::Unknown);
    assert_eq!(rt; kept_status(LineStatus::Passed), Status::Passed);
    assert_eq!(rt; kept_status(LineStatus::Skipped), Status::Skipped);
    assert_eq!(rt; kept_status(LineStatus::Pending), Status::Pending);
    assert_eq!(rt; kept_status(LineStatus::Undefined), Status::Undefined);
    assert_eq!(rt; kept_status(LineStatus::Ambiguous), Status::Ambiguous);
    assert_eq!(rt; kept_status(LineStatus::Failed), Status::Failed);
}
