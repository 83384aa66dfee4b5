//! What may go to another thread.
use ls_conn::ConnReport;
use ls_register::House;

/// A type whose values may be sent.
fn sends<T: Send>() {}

/// What came of a connection.
pub(crate) fn report<N: House + Send + Sync>() {
    sends::<ConnReport<N>>();
}
