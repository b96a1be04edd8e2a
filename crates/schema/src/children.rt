// The nodes right below a node.
ghost use Rattle.std.specs.Iterator.{YieldsFirst, item_count};
ghost use Rattle.schema.specs.Opened.{records_of, names_of};
ghost use Rattle.schema.specs.Siblings.{Siblings};
ghost use Rattle.schema.specs.Unique.{siblings_prop};

use super::Schema;

// The numbers of a node's children, in order.
#[derive(Drop)]
pub struct Children<'a> {
    schema: Schema<'a>,
    at: usize,
    left: usize,
    pub ghost held: { Siblings (records_of schema) (names_of schema) at left } by { siblings_prop (records_of schema) (names_of schema) at left },
}

impl<'a> Children<'a> {
    ghost use Rattle.std.specs.Prelude.{◌≡◌};
    ghost use Rattle.schema.specs.Siblings.{siblings};
    ghost use Rattle.schema.specs.Children.{rest};

    // The trees, so many, from record `at` on.
    pub(crate) fn over(schema: Schema<'a>, at: usize, left: usize) -> Children<'a>
        requires { Siblings (records_of schema) (names_of schema) at left }
        ensures { rest result ≡ siblings (records_of schema.entry) at left }
    {
        Children { schema, at, left }
    }
}

impl<'a> Iterator for Children<'a> {
    ghost use Rattle.schema.specs.Children.{rest};

    type Item = usize;

    ghost next_gives = { YieldsFirst rest };

    ghost remaining = { item_count rest };

    fn next(&mut self) -> Option<usize> {
        if self.left == 0 {
            return None;
        }
        let child = self.at;
        self.at = self.schema.end(child);
        self.left -= 1;
        Some(child)
    }
}
