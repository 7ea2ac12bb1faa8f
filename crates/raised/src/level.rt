// A level (cents) that is raised for a resource.
#[derive(Clone, Copy, Debug, Default)]
pub struct RaisedLevel {
    pub resource: u16,
    pub level: i32,
}
