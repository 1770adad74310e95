// The tag of a rule's row: the rule's number in the top 16 bits and its class below.
ghost use Rattle.std.specs.Prelude.{◌≡◌};
ghost use Rattle.rules.specs.Rules.{tag_of, number_and_class, TagLaw};

#[derive(Clone, Copy, PartialEq, Eq, Debug)]
pub struct Tag {
    pub number: u16,
    pub class: u16,
}

impl From<Tag> for u32 {
    ghost from_gives = { λ tag r. r ≡ tag_of tag.number tag.class };

    fn from(tag: Tag) -> u32 {
        u32::from(tag.number) * 65536 + u32::from(tag.class)
    }
}

impl From<u32> for Tag {
    ghost from_gives = { λ n r. (r.number, r.class) ≡ number_and_class n };

    fn from(n: u32) -> Tag {
        Tag {
            number: (n / 65536) as u16,
            class: (n % 65536) as u16,
        }
    }
}

// A tag tells the number and the class that it was made of, and every tag is made of those that it tells.
pub fn tag_law()
    ensures { TagLaw }
{}
