// Names, and the reserved words among them.
ghost use Rattle.std.specs.Prelude.{◌≡◌, ◌≤◌, take};
ghost use Rattle.paper.specs.Bytes.{same};
ghost use Rattle.paper.specs.Tokens.{goes_on};
ghost use Rattle.paper.specs.Scanner.{span};
ghost use Rattle.tokens.specs.Kinds.{named, words};

use crate::Kind;
use crate::class::Class;

// The reserved words.
#[derive(Clone, Copy, Debug, PartialEq, Eq)]
pub enum Word {
    Extends,
    Data,
    Null,
    True,
    False,
    Root,
    Parent,
    This,
    Attrib,
    Lazy,
    Host,
    Process,
    Property,
    Iproperty,
}

// The reserved words: bytes, and how many of them spell which word. Byte arrays with lengths, as document 01 asks.
const WORDS: [([u8; 9], usize, Word); 14] = [
    (*b"extends\0\0", 7, Word::Extends),
    (*b"DATA\0\0\0\0\0", 4, Word::Data),
    (*b"NULL\0\0\0\0\0", 4, Word::Null),
    (*b"true\0\0\0\0\0", 4, Word::True),
    (*b"false\0\0\0\0", 5, Word::False),
    (*b"ROOT\0\0\0\0\0", 4, Word::Root),
    (*b"PARENT\0\0\0", 6, Word::Parent),
    (*b"THIS\0\0\0\0\0", 4, Word::This),
    (*b"ATTRIB\0\0\0", 6, Word::Attrib),
    (*b"LAZY\0\0\0\0\0", 4, Word::Lazy),
    (*b"HOST\0\0\0\0\0", 4, Word::Host),
    (*b"PROCESS\0\0", 7, Word::Process),
    (*b"PROPERTY\0", 8, Word::Property),
    (*b"IPROPERTY", 9, Word::Iproperty),
];

// Whether a name is the first n bytes. Byte by byte: over the constant list the search is then compiled to a choice by
// length and letters, where `==` is a call for each word.
fn is_spelt(name: &[u8], bytes: &[u8; 9], n: usize) -> bool
    requires { n ≤ 9 }
    ensures { result ≡ same name.now (take n bytes.now) }
{
    if name.len() != n {
        return false;
    }
    for i in 0..n {
        if name[i] != bytes[i] {
            return false;
        }
    }
    true
}

// How many bytes at the front go on a name.
pub(crate) fn name_len(s: &[u8]) -> usize
    ensures { result ≡ span goes_on s.now }
{
    s.iter().take_while(|b| Class::of(**b).goes_on()).count()
}

// A reserved word, or a name.
pub(crate) fn kind_of(name: &[u8]) -> Kind
    ensures { result ≡ named words name.now }
{
    for (bytes, n, word) in &WORDS {
        if is_spelt(name, bytes, *n) {
            return Kind::Word(*word);
        }
    }
    Kind::Name
}
