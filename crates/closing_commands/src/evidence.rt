// What a yes shows.

/// A reduced basis, of an equation's closure or of the invariants up to a degree; or a certificate that lists first what was asked for.
#[derive(Clone, Copy)]
pub enum Evidence {
    Basis,
    Certificate,
}
