//! Commands as they are printed: one canonical line for each.
ghost use Rattle.std.specs.Prelude.{◌≡◌, ◌≢◌, ◌+◌, ◌≤◌, ◌<◌, ◌^◌, ◌∷◌, [], ◌++◌, IsTrue, Ok, codes, length};
ghost use Rattle.std.specs.Fmt.{decimal};
ghost use Rattle.key_mask.specs.Keys.{key_text, longest_key};
ghost use Rattle.key_mask.specs.Masks.{AreLengths, no_lengths};
ghost use Rattle.task_filters.specs.Filters.{IsFilter};
ghost use Rattle.task_filters.specs.Printing.{filter_text, longest_filter};
ghost use Rattle.sketch_defs.specs.declared.names.TheConstants.{NAME_BYTES};
ghost use Rattle.sketch_defs.specs.Names.{is_name};
ghost use Rattle.sketch_defs.specs.Tasks.{allows, allows_rows};
ghost use Rattle.task_lang.specs.declared.commands.Command.TheVariants as commands;
ghost use Rattle.task_lang.specs.Words.{verb_word, longest_verb, kind_word, attr_word, longest_attr};
ghost use Rattle.task_lang.specs.Script.{script_in, script_limit};
ghost use Rattle.task_lang.specs.Canonical.{IsCanonical};
ghost use Rattle.task_lang.specs.Printing.{command_text, task_text, labelled, longest_front, longest_labelled, longest_task, IsCommand, IsTask};

use crate::commands::{Command, Verb};
use crate::words::{attr_word, kind_word, verb_word};
use itoa::Buffer;
use key_mask::{Line, Mask, put_key};
use pkt_headers::Attr;
use sketch_defs::{Name, Task};
use task_filters::Filter;

/// The canonical text of the command, which is read as it: its words in their order with single
/// spaces between, and no end of the line.
pub fn put_command(command: &Command) -> Line
    ensures text { result.bytes ≡ command_text command.now }
    ensures again { script_in result.bytes ≡ Ok (command.now ∷ []) }
    ensures canonical { IsCanonical result.bytes }
{
    command_line(command)
}

/// The canonical text of the task: what stands behind `add` in the command that adds it.
#[tactic(auto, using(crate::proofs::PrintLemmas::task_again))]
pub fn put_task(task: &Task) -> Line
    ensures text { result.bytes ≡ task_text task.now }
    ensures again { script_in (codes "add " ++ result.bytes) ≡ Ok (commands.Add task.now ∷ []) }
    ensures canonical { IsCanonical (codes "add " ++ result.bytes) }
    ensures short { length result.bytes ≤ longest_task }
{
    let mut line = Line::new();
    put_parts(&mut line, task);
    line
}

#[tactic(auto, unfolding(crate::specs::Printing::command_text))]
fn command_line(command: &Command) -> Line
    ensures text { result.bytes ≡ command_text command.now }
    ensures known { IsCommand command.now }
    ensures short { length result.bytes ≤ script_limit }
{
    match command {
        Command::Add(task) => add_line(task),
        Command::Resize { name, size } => resize_line(name, *size),
        Command::Remove(name) => named_line(Verb::Remove, name),
        Command::Release(name) => named_line(Verb::Release, name),
        Command::Packets(number) => packets_line(*number),
        Command::Run => verb_line(Verb::Run),
        Command::Read(name) => named_line(Verb::Read, name),
        Command::Frozen(name) => named_line(Verb::Frozen, name),
        Command::Query { name, at } => query_line(name, at),
        Command::Dist(name) => named_line(Verb::Dist, name),
        Command::Card(name) => named_line(Verb::Card, name),
        Command::Show => verb_line(Verb::Show),
        Command::Stat => verb_line(Verb::Stat),
    }
}

#[tactic(auto, unfolding(crate::specs::Printing::command_text, crate::specs::Printing::task_text))]
fn add_line(task: &Task) -> Line
    ensures text { result.bytes ≡ command_text (commands.Add task.now) }
    ensures known { IsTask task.now }
    ensures short { length result.bytes ≤ script_limit }
{
    let mut line = verb_line(Verb::Add);
    line.push_str(" ");
    put_parts(&mut line, task);
    line
}

#[tactic(auto, unfolding(crate::specs::Printing::command_text))]
fn resize_line(name: &Name, size: u32) -> Line
    ensures text { result.bytes ≡ command_text (commands.Resize name.now size) }
    ensures named { IsTrue (is_name name.now) }
    ensures short { length result.bytes ≤ script_limit }
{
    let mut line = named_line(Verb::Resize, name);
    line.push_str(" memory=");
    line.push_str(Buffer::new().format(size));
    line
}

#[tactic(auto, unfolding(crate::specs::Printing::command_text))]
fn packets_line(number: u32) -> Line
    ensures text { result.bytes ≡ command_text (commands.Packets number) }
    ensures short { length result.bytes ≤ script_limit }
{
    let mut line = verb_line(Verb::Packets);
    line.push_str(" ");
    line.push_str(Buffer::new().format(number));
    line
}

#[tactic(auto, unfolding(crate::specs::Printing::command_text))]
fn query_line(name: &Name, at: &Filter) -> Line
    ensures text { result.bytes ≡ command_text (commands.Query name.now at.now) }
    ensures named { IsTrue (is_name name.now) }
    ensures known { IsFilter at.now }
    ensures short { length result.bytes ≤ script_limit }
{
    let mut line = named_line(Verb::Query, name);
    line.push_str(" ");
    put_filter(&mut line, at);
    line
}

/// The word of a command, and the name of a task.
fn named_line(verb: Verb, name: &Name) -> Line
    ensures text { result.bytes ≡ verb_word verb ++ 32 ∷ name.now }
    ensures named { IsTrue (is_name name.now) }
    ensures short { length result.bytes ≤ longest_verb + (1 + NAME_BYTES) }
{
    let mut line = verb_line(verb);
    line.push_str(" ");
    put_name(&mut line, name);
    line
}

/// The word of a command alone.
fn verb_line(verb: Verb) -> Line
    ensures text { result.bytes ≡ verb_word verb }
    ensures short { length result.bytes ≤ longest_verb }
{
    let mut line = Line::new();
    line.push_str(verb_word(verb));
    line
}

/// Appends the words of a task.
#[tactic(auto, unfolding(crate::specs::Printing::task_text))]
fn put_parts(line: &mut Line, task: &Task)
    requires { length line.old.bytes + longest_task ≤ 512 }
    ensures text { line.new.bytes ≡ line.old.bytes ++ task_text task.now }
    ensures known { IsTask task.now }
    ensures short { length line.new.bytes ≤ length line.old.bytes + longest_task }
{
    put_front(line, task);
    put_labelled(line, task);
}

/// Appends the words of a task that have no label.
fn put_front(line: &mut Line, task: &Task)
    requires { length line.old.bytes + longest_front ≤ 512 }
    ensures text { let sketch = task.now in
        line.new.bytes ≡ line.old.bytes ++ (sketch.name ++ 32 ∷ (kind_word sketch.kind ++ 32 ∷ decimal sketch.rows)) }
    ensures named { IsTrue (is_name task.now.name) }
    ensures rows { IsTrue (allows_rows task.now.kind task.now.rows) }
    ensures short { length line.new.bytes ≤ length line.old.bytes + longest_front }
{
    put_name(line, task.name());
    line.push_str(" ");
    line.push_str(kind_word(task.kind()));
    line.push_str(" ");
    line.push_str(Buffer::new().format(task.rows()));
}

/// Appends the words of a task that have labels, each behind a space.
fn put_labelled(line: &mut Line, task: &Task)
    requires { length line.old.bytes + longest_labelled ≤ 512 }
    ensures text { let sketch = task.now in
        line.new.bytes ≡ line.old.bytes ++ (codes " key=" ++ (key_text sketch.key ++ (codes " attr=" ++ (attr_word sketch.attr
        ++ (codes " filter=" ++ (filter_text sketch.filter ++ (codes " memory=" ++ decimal sketch.size))))))) }
    ensures key { AreLengths task.now.key }
    ensures stands { task.now.key ≢ no_lengths }
    ensures attr { IsTrue (allows task.now.kind task.now.attr) }
    ensures filter { IsFilter task.now.filter }
    ensures size { task.now.size < 2 ^ 32 }
    ensures short { length line.new.bytes ≤ length line.old.bytes + longest_labelled }
{
    put_mask(line, task.key());
    put_attr(line, task.attr());
    line.push_str(" filter=");
    put_filter(line, task.filter());
    line.push_str(" memory=");
    line.push_str(Buffer::new().format(task.size()));
}

/// Appends the key, with its label.
fn put_mask(line: &mut Line, key: &Mask)
    requires room { length line.old.bytes + labelled (codes " key=") longest_key ≤ 512 }
    requires stands { key.now ≢ no_lengths }
    ensures text { line.new.bytes ≡ line.old.bytes ++ (codes " key=" ++ key_text key.now) }
    ensures known { AreLengths key.now }
    ensures short { length line.new.bytes ≤ length line.old.bytes + labelled (codes " key=") longest_key }
{
    line.push_str(" key=");
    line.push_str(put_key(key).as_str());
}

/// Appends the attribute, with its label.
fn put_attr(line: &mut Line, attr: Attr)
    requires { length line.old.bytes + labelled (codes " attr=") longest_attr ≤ 512 }
    ensures text { line.new.bytes ≡ line.old.bytes ++ (codes " attr=" ++ attr_word attr) }
    ensures short { length line.new.bytes ≤ length line.old.bytes + labelled (codes " attr=") longest_attr }
{
    line.push_str(" attr=");
    line.push_str(attr_word(attr));
}

/// Appends the name.
fn put_name(line: &mut Line, name: &Name)
    requires { length line.old.bytes + NAME_BYTES ≤ 512 }
    ensures text { line.new.bytes ≡ line.old.bytes ++ name.now }
    ensures named { IsTrue (is_name name.now) }
    ensures short { length line.new.bytes ≤ length line.old.bytes + NAME_BYTES }
{
    line.push_str(name.as_str());
}

/// Appends the filter.
fn put_filter(line: &mut Line, filter: &Filter)
    requires { length line.old.bytes + longest_filter ≤ 512 }
    ensures text { line.new.bytes ≡ line.old.bytes ++ filter_text filter.now }
    ensures known { IsFilter filter.now }
    ensures short { length line.new.bytes ≤ length line.old.bytes + longest_filter }
{
    line.push_str(filter.put().as_str());
}

#[cfg(test)]
mod tests {
    use super::{put_command, put_task};
    use crate::commands::Command;
    use key_mask::parse_key;
    use pkt_headers::Attr;
    use sketch_defs::{Kind, Name, Task};
    use std::test::Fail;
    use task_filters::Filter;

    fn task() -> Option<Task> {
        let name = Name::parse(b"t")?;
        let key = parse_key(b"proto,src_ip/32").ok()?;
        let filter = Filter::parse(b"ethertype:0x0800").ok()?;
        Task::new(name, Kind::Cms, 1, key, Attr::Ttl, filter, 32).ok()
    }

    #[test]
    fn commands_print_in_one_spelling(rt: HostRuntime) -> Result<(), Fail> {
        let task = task().ok_or("a task")?;
        let name = Name::parse(b"sixteen_bytes_ab").ok_or("a name")?;
        let at = Filter::parse(b"proto:006,src_ip:10.1.2.3/8");
        let at = at.ok().ok_or("a filter")?;
        let size = 4294967295;
        let rows = [
            (
                Command::Add(task),
                "add t cms 1 key=src_ip,proto attr=ttl filter=ethertype:0x0800 memory=32",
            ),
            (
                Command::Resize { name, size },
                "resize sixteen_bytes_ab memory=4294967295",
            ),
            (Command::Remove(name), "remove sixteen_bytes_ab"),
            (Command::Release(name), "release sixteen_bytes_ab"),
            (Command::Packets(0), "packets 0"),
            (Command::Run, "run"),
            (Command::Read(name), "read sixteen_bytes_ab"),
            (Command::Frozen(name), "frozen sixteen_bytes_ab"),
            (
                Command::Query { name, at },
                "query sixteen_bytes_ab src_ip:10.0.0.0/8,proto:6",
            ),
            (Command::Dist(name), "dist sixteen_bytes_ab"),
            (Command::Card(name), "card sixteen_bytes_ab"),
            (Command::Show, "show"),
            (Command::Stat, "stat"),
        ];
        for (command, canonical) in rows {
            assert_eq!(rt; put_command(&command).as_str(), canonical);
        }
        Ok(())
    }

    #[test]
    fn tasks_print_as_behind_add(rt: HostRuntime) -> Result<(), Fail> {
        let task = task().ok_or("a task")?;
        let canonical = "t cms 1 key=src_ip,proto attr=ttl filter=ethertype:0x0800 memory=32";
        assert_eq!(rt; put_task(&task).as_str(), canonical);
        Ok(())
    }
}
