//! What the lines so far give.

ghost use Rattle.std.specs.Prelude.{◌≡◌, ◌+◌, ◌<◌, ◌≤◌, ◌∷◌, [], false, length, OnErr, OnOk};
ghost use Rattle.std.specs.List.{list_any};
ghost use Rattle.script_words.specs.Declarations.{is_queue};

use crate::devices::Devices;
use crate::names::Names;
use crate::pairs::Pairs;
use crate::script::Script;
use crate::switches::Switches;
use crate::traffic::TrafficList;
use script_words::{Given, PairHosts, Part, QueueName};
use std::alloc::{AllocError, Global};
use std::marker::Model;
use step_kinds::{DevPlan, Items, PairPlan, Plan, Side, Step, SwitchPlan};
use step_list::{Macro, StepList};

/// The part that the next line stands in, and the plan that the lines so far declare.
#[derive(Drop)]
pub struct Reader {
    part: Part,
    hosts: Names,
    pairs: Pairs,
    pair_hosts: Vec<PairHosts>,
    devs: Devices,
    switches: Switches,
    steps: StepList,
    step_count: usize,
    traffic: TrafficList,
    classed: Vec<QueueName>,
}

impl Reader {
    ghost use Rattle.script_words.specs.Before.{Before, APair, ADevice, AClass, ASwitch, MoreSteps, nothing_before, with_given, has_name, pair_names, dev_names, switch_names};
    ghost use Rattle.step_kinds.specs.Limits.{most_pairs, most_devices, most_switches, most_steps, IsClass};
    ghost use Rattle.pair_model.specs.DeclaredPlans.{IsPair, IsDevice, IsQueueOf};
    ghost use Rattle.pair_model.specs.Plans.{pair_plan, dev_plan, switch_plan};
    ghost use Rattle.pair_model.specs.Switches.{IsSwitch};
    ghost use Rattle.script_words.specs.Ports.{host_of, is_port};
    ghost use Rattle.script_words.specs.Compact.{given_of};
    ghost use Rattle.step_list.specs.Compact.{line_steps_of};
    ghost use Rattle.script_plan.specs.Sound.{Suits};
    ghost use Rattle.script_plan.specs.Scripts.{plan_in};

    /// No line was read.
    pub fn new(alloc: Global) -> Reader
        ensures { result ≡ nothing_before }
    {
        Reader {
            part: Part::Declarations,
            hosts: Names::new(alloc),
            pairs: Pairs::new(alloc),
            pair_hosts: Vec::new(alloc),
            devs: Devices::new(alloc),
            switches: Switches::new(alloc),
            steps: StepList::new(alloc),
            step_count: 0,
            traffic: TrafficList::new(alloc),
            classed: Vec::new(alloc),
        }
    }

    /// Returns the part that the next line stands in.
    pub fn part(&self) -> Part
        ensures { result ≡ self.now.part }
    {
        self.part
    }

    /// Returns the hosts.
    pub fn hosts(&self) -> &Names
        ensures { result.now ≡ self.now.hosts }
    {
        &self.hosts
    }

    /// Returns the pairs.
    pub fn pairs(&self) -> &Pairs
        ensures value { result.now ≡ self.now.plan.pairs }
        ensures few { length result.now ≤ most_pairs }
    {
        &self.pairs
    }

    /// Returns the pair with the number, which has to be below how many there are.
    pub fn pair(&self, number: u32) -> &PairPlan
        requires { number < length self.now.plan.pairs }
        ensures value { result.now ≡ pair_plan self.now.plan number }
        ensures declared { IsPair result.now }
    {
        self.pairs.get(number)
    }

    /// Returns the device with the number, which has to be below how many there are.
    pub fn device(&self, number: u32) -> &DevPlan
        requires { number < length self.now.plan.devs }
        ensures value { result.now ≡ dev_plan self.now.plan.devs number }
        ensures declared { IsDevice self.now.plan result.now }
    {
        self.devs.get(number)
    }

    /// Returns the devices.
    pub fn devs(&self) -> &Devices
        ensures { result.now ≡ self.now.plan.devs }
    {
        &self.devs
    }

    /// Returns the switches.
    pub fn switches(&self) -> &Switches
        ensures { result.now ≡ self.now.plan.switches }
    {
        &self.switches
    }

    /// Returns the switch with the number, which has to be below how many there are.
    pub fn switch(&self, number: u32) -> &SwitchPlan
        requires { number < length self.now.plan.switches }
        ensures value { result.now ≡ switch_plan self.now.plan number }
        ensures declared { IsSwitch self.now.plan result.now }
    {
        self.switches.get(number)
    }

    /// Returns whether the device is a port of a switch.
    pub fn is_port(&self, dev: u32) -> bool
        ensures { result ≡ is_port self.now dev }
    {
        self.switches.any_port(dev)
    }

    /// Returns the name of the host on which the device with the number stands. It has to be below how many devices
    /// there are.
    pub fn host_of(&self, dev: u32) -> &[u8]
        requires { dev < length self.now.plan.devs }
        ensures { result.now ≡ host_of self.now dev }
    {
        let device = self.devs.get(dev);
        let hosts = &self.pair_hosts[device.pair as usize];
        match device.side {
            Side::A => hosts.a.bytes(),
            Side::B => hosts.b.bytes(),
        }
    }

    /// Returns how many steps there are.
    pub fn step_count(&self) -> usize
        ensures value { result ≡ length self.now.plan.steps }
        ensures few { result ≤ most_steps }
    {
        self.step_count
    }

    /// Returns the traffic.
    pub fn traffic(&self) -> &TrafficList
        ensures { result.now ≡ self.now.plan.traffic }
    {
        &self.traffic
    }

    /// Returns whether the queue has its class.
    pub fn is_classed(&self, name: QueueName) -> bool
        ensures { result ≡ list_any (is_queue name.pair name.side name.queue) self.now.classed }
    {
        self.classed.iter().any(|other| is_queue(name, other))
    }

    /// Adds a pair with its hosts.
    fn add_pair(
        &mut self,
        alloc: Global,
        pair: PairPlan,
        hosts: PairHosts,
    ) -> Result<(), AllocError>
        requires new { has_name (pair_names self.old) pair.name ≡ false }
        requires few { length self.old.plan.pairs < most_pairs }
        requires fits { IsPair pair }
        ensures { OnOk result (self.new ≡ with_given 0 self.old (APair pair hosts)) }
    {
        self.pair_hosts.reserve(1)?;
        self.pairs.push(alloc, pair)?;
        self.pair_hosts.push_reserved(hosts);
        Ok(())
    }

    /// Adds a device.
    fn add_device(&mut self, alloc: Global, dev: DevPlan) -> Result<(), AllocError>
        requires new { has_name (dev_names self.old) dev.name ≡ false }
        requires few { length self.old.plan.devs < most_devices }
        requires fits { IsDevice self.old.plan dev }
        ensures { OnOk result (self.new ≡ with_given 0 self.old (ADevice dev)) }
    {
        self.devs.push(alloc, dev)?;
        Ok(())
    }

    /// Adds a switch.
    fn add_switch(&mut self, alloc: Global, switch: SwitchPlan) -> Result<(), AllocError>
        requires new { has_name (switch_names self.old) switch.name ≡ false }
        requires few { length self.old.plan.switches < most_switches }
        requires fits { IsSwitch self.old.plan switch }
        ensures { OnOk result (self.new ≡ with_given 0 self.old (ASwitch switch)) }
    {
        self.switches.push(alloc, switch)?;
        Ok(())
    }

    /// Adds the class of a queue.
    fn add_class(&mut self, name: QueueName, class: u32) -> Result<(), AllocError>
        requires queue { IsQueueOf self.old.plan name.pair name.side name.queue }
        requires class { IsClass class }
        ensures { OnOk result (self.new ≡ with_given 0 self.old (AClass name class)) }
    {
        self.classed.push(name)?;
        self.pairs
            .set_class(name.pair, name.side, name.queue, class);
        Ok(())
    }

    /// Adds the steps of line `line`, with which there are 1,000,000 at most. Returns an error if memory runs out, and
    /// then nothing is added.
    #[inline(always)]
    pub fn add_steps(&mut self, line: u32, more: Macro) -> Result<(), AllocError>
        requires { length self.old.plan.steps + length (line_steps_of more) ≤ most_steps }
        ensures ok { OnOk result (self.new ≡ with_given line self.old (MoreSteps (line_steps_of more))) }
        ensures err { OnErr result (self.new ≡ self.old) }
    {
        let count = more.count();
        self.steps.push(line, more)?;
        self.step_count += count as usize;
        Ok(())
    }

    /// Adds the only step of line `line` to fewer than 1,000,000. Returns an error if memory runs out, and then nothing
    /// is added.
    pub fn add_step(&mut self, line: u32, step: Step) -> Result<(), AllocError>
        requires { length self.old.plan.steps < most_steps }
        ensures ok { OnOk result (self.new ≡ with_given line self.old (MoreSteps (step ∷ []))) }
        ensures err { OnErr result (self.new ≡ self.old) }
    {
        self.steps.push_step(line, step)?;
        self.step_count += 1;
        Ok(())
    }

    /// Adds what line `line` gives beside steps. Returns an error if memory runs out, and then no more is said of what
    /// the lines so far give.
    ///
    /// A name has to be new, a pair, device, class or switch as a script can declare it, and no limit is passed. A pair
    /// that loses its link has a number below 16.
    pub fn add(&mut self, alloc: Global, line: u32, given: Given) -> Result<(), AllocError>
        requires suits { Suits self.old given }
        ensures { OnOk result (self.new ≡ with_given line self.old (given_of given)) }
    {
        match given {
            Given::Nothing => {}
            Given::Host { name } => self.hosts.push(alloc, name.bytes())?,
            Given::Pair { pair, hosts } => self.add_pair(alloc, Box::into_inner(pair), hosts)?,
            Given::Device { dev } => self.add_device(alloc, dev)?,
            Given::Class { queue, class } => self.add_class(queue, class)?,
            Given::Switch { switch } => self.add_switch(alloc, switch)?,
            Given::StepsBegin => self.part = Part::Steps,
            Given::TrafficBegins => self.part = Part::Traffic,
            Given::Frame { lane, frame } => self.traffic.push_frame(lane, frame)?,
            Given::Flood { lane, count, len } => {
                self.traffic.push_flood(alloc, lane, count, len)?;
            }
            Given::Break { pair } => self.traffic.push_break(pair)?,
        }
        Ok(())
    }

    /// Returns what the lines declare.
    pub fn into_script(self, alloc: Global) -> Script
        ensures { plan_in result ≡ self.plan }
    {
        Script {
            declared: Plan {
                pairs: self.pairs.into_items(),
                devs: self.devs.into_items(),
                switches: self.switches.into_items(),
                steps: Items::new(alloc),
                traffic: self.traffic.into_items(),
            },
            steps: self.steps,
        }
    }
}

impl Model for Reader {
    ghost use Rattle.script_words.specs.Before.{Before};
    ghost use Rattle.script_plan.specs.Sound.{IsScriptKept};
    ghost use Rattle.script_plan.specs.LinesSoFar.{before_with};

    ghost Value = { Before };

    ghost view = { λ all. before_with all.part all.hosts all.pairs all.devs all.switches all.steps all.traffic all.pair_hosts.items all.classed.items };

    ghost invariant = { λ all. IsScriptKept all.step_count (before_with all.part all.hosts all.pairs all.devs all.switches all.steps all.traffic all.pair_hosts.items all.classed.items) };
}

/// Returns whether this is the same queue.
fn is_queue(name: QueueName, other: &QueueName) -> bool
    ensures { result ≡ is_queue name.pair name.side name.queue other.now }
{
    other.pair == name.pair && other.side.is(name.side) && other.queue == name.queue
}
