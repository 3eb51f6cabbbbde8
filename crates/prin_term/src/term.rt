/// A principal: a key, a name, or a compound of others.
#[derive(Drop)]
pub enum Term {
    Key(u32),
    Name(u32),
    And(Box<Term>, Box<Term>),
    /// The first quoting the second.
    Quote(Box<Term>, Box<Term>),
    /// The term in a role, which is named by its number.
    AsRole(Box<Term>, u32),
    For(Box<Term>, Box<Term>),
}

/// `left => right`: the left speaks for the right.
#[derive(Drop)]
pub struct Statement {
    pub left: Term,
    pub right: Term,
}

/// An entry of an access list. Rights are the sum of 1 read, 2 write, 4 control and 8 manage.
#[derive(Drop)]
pub struct Entry {
    pub rights: u8,
    pub who: Term,
}

/// The key of a name.
#[derive(Clone, Copy, PartialEq, Eq)]
pub struct Anchor {
    pub key: u32,
    pub name: u32,
}
