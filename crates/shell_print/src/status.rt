// The status of a command whose answer is told.
use report::status::Status;

// This status, unless what tells it could not be written. After a write that failed nothing more is written.
pub fn told(written: bool, status: Status) -> Status {
    if written { status } else { Status::Failed }
}
