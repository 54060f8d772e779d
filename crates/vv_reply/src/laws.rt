//! A law of the lines of replies. It is a function without arguments that does nothing: what it ensures is the law.
ghost use Rattle.std.specs.Prelude.{IsTrue};
ghost use Rattle.vv_reply.specs.declared.reply.Reply.{Reply};
ghost use Rattle.vv_reply.specs.Objects.{names_rise};
ghost use Rattle.vv_reply.specs.Replies.{members_of};

/// The members of every reply stand in the order of the bytes of their names, and no name comes twice.
pub fn the_names_of_every_reply_rise()
    ensures { (reply : Reply) → IsTrue (names_rise (members_of reply)) }
{}
